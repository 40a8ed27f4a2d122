/// What looks on while an input is read.
pub trait Watch {
    /// So many bytes of the input are read.
    fn read(&self, bytes: u64);

    /// Something else is about to be written where the watch writes.
    fn clear(&self);
}

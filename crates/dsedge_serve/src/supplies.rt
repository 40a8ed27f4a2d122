/// What a plan is served with.
#[derive(Drop)]
pub struct Supplies<'a, S> {
    /// The texts of the files that it names, in the order of its words.
    pub texts: &'a [Vec<u8>],
    /// Where books stand.
    pub shelf: &'a S,
    /// Whether more is asked for beside its answer, for a person.
    pub is_asked: bool,
}

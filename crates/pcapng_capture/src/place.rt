use pcap_capture::Endianness;

/// What is known of a block by its front.
#[derive(Clone, Copy, Debug)]
pub(crate) struct Front {
    /// The order of its numbers.
    pub(crate) order: Endianness,
    /// Its type.
    pub(crate) kind: u32,
}

ghost use Rattle.std.specs.Prelude.{◌≡◌, ℕ};

use thiserror::Error;

/// Why a capture is not read on, or not written.
#[derive(Clone, Copy, Debug, PartialEq, Eq, Drop, Error)]
pub enum PcapFault {
    /// The first four bytes are no magic number of a capture.
    #[error("not a capture")]
    NotPcap,
    /// They begin the newer format, pcapng.
    #[error("a capture of the newer format")]
    IsPcapng,
    /// The version is not 2.4, or that of a section of the newer format is not 1.
    #[error("another version")]
    BadVersion,
    /// The link type, the low 16 bits of the heading's last word, is not one that is read.
    #[error("link type {0}")]
    LinkType(u16),
    /// A record has more than 262,144 captured bytes.
    #[error("a record of {0} bytes")]
    RecordTooLong(u32),
    /// The bytes end in the middle of the heading, of a record or of a block.
    #[error("cut short")]
    Truncated,
    /// The device that gives the bytes failed.
    #[error("cannot be read")]
    ReadFault,
    /// The device that takes the bytes failed.
    #[error("cannot be written")]
    WriteFault,
    /// There is not enough memory.
    #[error("out of memory")]
    NoMemory,
    /// An earlier call answered a fault.
    #[error("failed before")]
    Failed,
    /// The byte-order magic of a section header says no order, or another block stands before the first of them.
    #[error("no section")]
    BadMagic,
    /// The length of a block is not a multiple of 4, or less than a block of its type has.
    #[error("a block of {0} bytes")]
    BadLength(u32),
    /// A block has more than 16,777,216 bytes.
    #[error("a block of {0} bytes")]
    BlockTooLong(u32),
    /// The length at a block's end is not the one at its front.
    #[error("a block with two lengths")]
    LengthsDiffer,
    /// A packet is of an interface that no block of its section described before.
    #[error("interface {0} is not described")]
    UnknownInterface(u32),
}

impl PcapFault {
    ghost use Rattle.pcap_capture.specs.Codes.{code_of};

    /// The fault's number, 1 to 15, in the order of their declaration.
    pub fn code(&self) -> u8
        ensures { result ≡ code_of self.now }
    {
        match self {
            PcapFault::NotPcap => 1,
            PcapFault::IsPcapng => 2,
            PcapFault::BadVersion => 3,
            PcapFault::LinkType(_) => 4,
            PcapFault::RecordTooLong(_) => 5,
            PcapFault::Truncated => 6,
            PcapFault::ReadFault => 7,
            PcapFault::WriteFault => 8,
            PcapFault::NoMemory => 9,
            PcapFault::Failed => 10,
            PcapFault::BadMagic => 11,
            PcapFault::BadLength(_) => 12,
            PcapFault::BlockTooLong(_) => 13,
            PcapFault::LengthsDiffer => 14,
            PcapFault::UnknownInterface(_) => 15,
        }
    }
}

/// How many packets and how many bytes left with each colour: green, yellow, red.
#[derive(Clone, Copy, Debug, PartialEq, Eq)]
pub struct Accounts {
    /// Packets by the colour that they left with.
    pub packets: [u64; 3],
    /// Bytes by the colour that they left with.
    pub bytes: [u64; 3],
}

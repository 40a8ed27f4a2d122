/// A digest of bytes: two outputs that differ have other digests but for rare chances.
#[derive(Drop)]
pub(crate) struct Digest {
    state: u64,
}

impl Digest {
    pub(crate) fn new() -> Digest {
        Digest {
            state: 0xcbf2_9ce4_8422_2325,
        }
    }

    pub(crate) fn value(&self) -> u64 {
        self.state
    }

    fn add(&mut self, word: u64) {
        self.state = (self.state ^ word)
            .wrapping_mul(0x9e37_79b9_7f4a_7c15)
            .rotate_left(29);
    }

    /// Takes these bytes in, and how many there are.
    pub(crate) fn take(&mut self, bytes: &[u8]) {
        self.add(bytes.len() as u64);
        for chunk in bytes.chunks(8) {
            self.add(word_of(chunk));
        }
    }
}

/// The number of eight bytes, or of fewer, lowest first.
fn word_of(chunk: &[u8]) -> u64 {
    if let [a, b, c, d, e, f, g, h] = chunk {
        return u64::from_le_bytes([*a, *b, *c, *d, *e, *f, *g, *h]);
    }
    let mut word = 0u64;
    for byte in chunk {
        word = word.wrapping_mul(256) ^ u64::from(*byte);
    }
    word
}

ghost use Rattle.std.specs.Prelude.{◌≡◌, ◌+◌, ◌≤◌, ◌↔◌, IsTrue, if◌then◌else◌};
ghost use Rattle.moment_core.specs.Excess.{coloured, without};
ghost use Rattle.moment_core.specs.Tokens.{with_tokens};

use crate::colour::Colour;
use crate::quantity::PacketSize;
use std::marker::Model;

/// A token bucket: its level and its size, in bytes (RFC 2697 section 3, RFC 2698 section 3).
#[derive(Clone, Copy, Debug, PartialEq, Eq)]
pub struct Bucket {
    /// Tc, Te or Tp: the tokens that it holds, in bytes, never above its size.
    pub level: u32,
    /// CBS, EBS or PBS: the tokens that it can hold, in bytes.
    pub size: u32,
}

impl Model for Bucket {
    ghost use Rattle.std.specs.Prelude.{◌≤◌};
    ghost use Rattle.moment_core.specs.Tokens.{Content};

    ghost Value = { Content };

    ghost view = { λ b. record { level = b.level; size = b.size } };

    ghost invariant = { λ b. b.level ≤ b.size };

    ghost inverse = { λ c. record { level = c.level; size = c.size } };
}

impl Bucket {
    /// A full bucket.
    pub fn full(size: u32) -> Self
        ensures level { result.level ≡ size }
        ensures size { result.size ≡ size }
    {
        Bucket { level: size, size }
    }

    /// The tokens that it can hold, in bytes; it never holds more.
    pub fn size(&self) -> u32
        ensures value { result ≡ self.now.size }
        ensures within { self.now.level ≤ self.now.size }
    {
        self.size
    }

    /// Takes tokens in, one by one, and answers how many found it full.
    #[tactic(auto, using(crate::proofs::TokenLaws::with_tokens_fits, crate::proofs::TokenLaws::with_tokens_full))]
    pub fn refill(&mut self, tokens: u128) -> u128
        ensures level { self.new.level ≡ with_tokens self.old.size tokens self.old.level }
        ensures surplus { self.new.level + result ≡ self.old.level + tokens }
        ensures size { self.new.size ≡ self.old.size }
    {
        let room = u128::from(self.size - self.level);
        let taken = tokens.min(room);
        self.level += taken as u32;
        tokens - taken
    }

    /// Whether it holds the tokens for so many bytes.
    pub fn holds(&self, bytes: PacketSize) -> bool
        ensures { IsTrue result ↔ (bytes ≤ self.now.level) }
    {
        u32::from(bytes.get()) <= self.level
    }

    /// Takes the tokens for so many bytes out; takes none where it holds fewer.
    pub fn take(&mut self, bytes: PacketSize) -> bool
        ensures taken { IsTrue result ↔ (bytes ≤ self.old.level) }
        ensures level { self.new.level + (if result then bytes else 0) ≡ self.old.level }
        ensures size { self.new.size ≡ self.old.size }
    {
        let taken = self.holds(bytes);
        if taken {
            self.level -= u32::from(bytes.get());
        }
        taken
    }
}

/// The levels of a committed and an excess bucket, in bytes (RFC 2697 section 3, RFC 4115).
#[derive(Clone, Copy, Debug, PartialEq, Eq)]
pub struct Levels {
    /// Tc: the level of the committed bucket.
    pub committed: u32,
    /// Te: the level of the excess bucket.
    pub excess: u32,
}

/// Takes a packet's bytes out of the bucket that its colour names, and answers that colour: green where it is seen
/// green and the committed bucket has enough, else yellow where it is not seen red and the excess bucket has enough,
/// else red (RFC 2697 section 3, RFC 4115).
#[tactic(auto, unfolding(crate::specs::Excess::coloured, crate::specs::Excess::without))]
pub fn take_committed_or_excess(
    committed: &mut Bucket,
    excess: &mut Bucket,
    size: PacketSize,
    seen: Colour,
) -> Colour
    ensures colour { result ≡ coloured (record { committed = committed.old.level; excess = excess.old.level }) size seen }
    ensures levels { record { committed = committed.new.level; excess = excess.new.level }
        ≡ without (record { committed = committed.old.level; excess = excess.old.level }) size result }
    ensures committed_size { committed.new.size ≡ committed.old.size }
    ensures excess_size { excess.new.size ≡ excess.old.size }
{
    if seen == Colour::Green && committed.take(size) {
        Colour::Green
    } else if seen != Colour::Red && excess.take(size) {
        Colour::Yellow
    } else {
        Colour::Red
    }
}

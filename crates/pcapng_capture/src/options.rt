ghost use Rattle.std.specs.Prelude.{◌≡◌, ◌+◌, ◌≤◌, ◌++◌, length, None, Some, IfSome, MatchOption, OnOk};
ghost use Rattle.pcapng_capture.specs.Options.{hashless, option_of, option_size, padded, value_size};

use pcap_capture::Endianness;
use std::alloc::AllocError;

/// The code of the option that is a hash of the packet, in each block that has a packet and options.
const HASH: u16 = 3;

/// A number of bytes, filled up to a multiple of four.
#[tactic(auto, unfolding(crate::specs::Options::padded))]
pub(crate) fn padded(size: usize) -> usize
    requires { size ≤ 16777216 }
    ensures value { result ≡ padded size }
    ensures more { size ≤ result }
    ensures few { result ≤ size + 3 }
{
    (size + 3) / 4 * 4
}

/// How many bytes the option at the front has; `None` where the options end.
#[tactic(auto, unfolding(crate::specs::Options::option_size))]
fn option_size(order: Endianness, bytes: &[u8]) -> Option<usize>
    ensures value { result ≡ option_size order bytes.now }
    ensures whole { IfSome result (λ size. size ≤ length bytes.now) }
    ensures room { IfSome result (λ size. 4 + value_size order bytes.now ≤ size) }
{
    if bytes.len() < 4 || order.read_u16(bytes) == 0 {
        return None;
    }
    let size = 4 + padded(usize::from(order.read_u16(&bytes[2..])));
    if bytes.len() < size {
        return None;
    }
    Some(size)
}

/// The value of the first option that has this code and a value of so many bytes.
pub(crate) fn option(order: Endianness, code: u16, size: u16, bytes: &[u8]) -> Option<&[u8]>
    ensures { MatchOption result
        (option_of order code size bytes.now ≡ None)
        (λ value. (option_of order code size bytes.now ≡ Some value.now) × (length value.now ≡ size)) }
{
    let mut at = 0;
    loop {
        let (_, left) = bytes.split_at(at);
        let Some(whole) = option_size(order, left) else {
            return None;
        };
        if order.read_u16(left) == code && order.read_u16(&left[2..]) == size {
            return Some(&left[4..4 + usize::from(size)]);
        }
        at += whole;
    }
}

/// How many bytes options have without the hashes among them.
pub(crate) fn size_without_hash(order: Endianness, bytes: &[u8]) -> usize
    ensures value { result ≡ length (hashless order bytes.now) }
    ensures few { result ≤ length bytes.now }
{
    let mut at = 0;
    let mut size = 0;
    loop {
        let (_, left) = bytes.split_at(at);
        let Some(whole) = option_size(order, left) else {
            return size + left.len();
        };
        if order.read_u16(left) != HASH {
            size += whole;
        }
        at += whole;
    }
}

/// Puts options behind a text, but for the hashes among them. `AllocError` where memory runs out.
pub(crate) fn add_without_hash(
    order: Endianness,
    bytes: &[u8],
    out: &mut Vec<u8>,
) -> Result<(), AllocError>
    ensures { OnOk result (out.new.items ≡ out.old.items ++ hashless order bytes.now) }
{
    let mut at = 0;
    loop {
        let (_, left) = bytes.split_at(at);
        let Some(whole) = option_size(order, left) else {
            return out.extend_from_slice(left);
        };
        if order.read_u16(left) != HASH {
            let (own, _) = left.split_at(whole);
            out.extend_from_slice(own)?;
        }
        at += whole;
    }
}

ghost use Rattle.std.specs.Prelude.{◌≡◌, ◌++◌, take, OnOk};
ghost use Rattle.pcapng_capture.specs.Marks.{marked_by, marked_text, number_bytes, packet_options, padding};
ghost use Rattle.pcapng_capture.specs.Marks.{rewritten};

use crate::options::{add_without_hash, padded, size_without_hash};
use pcap_capture::{Content, Endianness, Frame};
use std::alloc::AllocError;

/// How many bytes stand before the packet of a simple packet block.
const SIMPLE: usize = 12;

/// The bytes of a number in the order of a section.
fn number_bytes(order: Endianness, number: u32) -> [u8; 4]
    ensures { result ≡ number_bytes order 4 number }
{
    match order {
        Endianness::Big => number.to_be_bytes(),
        Endianness::Little => number.to_le_bytes(),
    }
}

/// Puts a record or a block behind a text as it is written where its packet is marked, with the packet's bytes as they
/// are: so they are marked there, behind as many bytes as the head has.
///
/// `AllocError` where memory runs out; then a front of it may have been put there.
#[tactic(auto, unfolding(crate::specs::Marks::marked_text))]
pub fn copy_to(frame: &Frame<'_>, out: &mut Vec<u8>) -> Result<(), AllocError>
    ensures { OnOk result (out.new.items ≡ out.old.items ++ marked_text frame.now frame.now.bytes) }
{
    match frame.content() {
        Content::Other | Content::Record(_) => out.extend_from_slice(frame.record()),
        Content::Block(_, order) => copy_block_to(frame, order, out),
    }
}

/// The same, of a block with a packet, in a section of this order.
fn copy_block_to(frame: &Frame<'_>, order: Endianness, out: &mut Vec<u8>) -> Result<(), AllocError>
    ensures { OnOk result (out.new.items ≡ out.old.items ++ marked_by order frame.now frame.now.bytes) }
{
    let options = options_of(frame);
    let left = size_without_hash(order, options);
    if options.len() - left == 0 {
        return out.extend_from_slice(frame.record());
    }
    let size = (frame.record().len() - (options.len() - left)) as u32;
    copy_without_hash(frame, order, options, number_bytes(order, size), out)
}

/// The same, where a hash is among these options, and with this size.
fn copy_without_hash(
    frame: &Frame<'_>,
    order: Endianness,
    options: &[u8],
    size: [u8; 4],
    out: &mut Vec<u8>,
) -> Result<(), AllocError>
    requires { options.now ≡ packet_options frame.now }
    ensures { OnOk result (out.new.items ≡ out.old.items ++ rewritten order frame.now size frame.now.bytes) }
{
    let head = frame.head();
    let (kind, _) = head.split_at(4);
    out.extend_from_slice(kind)?;
    out.extend_from_slice(&size)?;
    let (_, behind) = head.split_at(8);
    out.extend_from_slice(behind)?;
    out.extend_from_slice(frame.bytes())?;
    out.extend_from_slice(padding_of(frame))?;
    add_without_hash(order, options, out)?;
    out.extend_from_slice(&size)
}

/// How many bytes fill the packet of a block up to a multiple of four.
fn padding_size(frame: &Frame<'_>) -> usize
    ensures { result ≡ padding frame.now }
{
    let size = frame.bytes().len();
    padded(size) - size
}

/// The bytes that fill the packet of a block up to a multiple of four.
fn padding_of<'a>(frame: &Frame<'a>) -> &'a [u8]
    ensures { result.now ≡ take (padding frame.now) frame.now.tail }
{
    let tail = frame.tail();
    &tail[..padding_size(frame).min(tail.len())]
}

/// The options behind the packet of a block.
fn options_of<'a>(frame: &Frame<'a>) -> &'a [u8]
    ensures { result.now ≡ packet_options frame.now }
{
    if frame.head().len() == SIMPLE {
        return &frame.record()[..0];
    }
    let tail = frame.tail();
    let (front, _) = tail.split_at(tail.len().saturating_sub(4));
    let (_, options) = front.split_at(padding_size(frame).min(front.len()));
    options
}

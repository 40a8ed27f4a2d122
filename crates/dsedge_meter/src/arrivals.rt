ghost use Rattle.std.specs.Prelude.{◌≡◌, ℕ, List, Some, IfSome};
ghost use Rattle.dsedge_meter.specs.Arrivals.{arrival_in, colour_named, colour_of_letter, sized_in, sized_since};
ghost use Rattle.dsedge_lines.specs.Fronts.{IsFirstLine};

use dsedge_lines::{behind, moment, number_before, size, sized_of};
use line_text::{three_fields, two_fields};
use meter_book::Arrival;
use moment_core::{Colour, Moment, PacketSize};

/// The colour that a letter says: `g`, `y` or `r`.
fn letter_colour(letter: u8) -> Option<Colour>
    ensures { result ≡ colour_of_letter letter }
{
    match letter {
        b'g' => Some(Colour::Green),
        b'y' => Some(Colour::Yellow),
        b'r' => Some(Colour::Red),
        _ => None,
    }
}

/// The colour that a field says, which is one letter.
pub fn colour(field: &[u8]) -> Option<Colour>
    ensures { result ≡ colour_named field.now }
{
    match field {
        [letter] => letter_colour(*letter),
        _ => None,
    }
}

/// The arrival that the line at the front of a text says, and what stands behind its LF, where it can be read there.
#[inline(always)]
pub fn front_arrival(line_number: u64, text: &[u8]) -> Option<(Arrival, &[u8])>
    ensures { IfSome result (λ front. (line : List ℕ) × IsFirstLine text.now line front.1.now
        × (arrival_in line_number line ≡ Some front.0)) }
{
    let (nanoseconds, sizes) = number_before(b' ', text)?;
    let (bytes, letters) = number_before(b' ', sizes)?;
    let (letter, end) = letters.split_first()?;
    let rest = behind(b'\n', end)?;
    let (moment, size) = sized_of(nanoseconds, bytes)?;
    let arrival = Arrival {
        flow: 0,
        packet: line_number,
        hop: 0,
        moment,
        size,
        came: letter_colour(*letter)?,
    };
    Some((arrival, rest))
}

/// The sized moment that the line at the front of a text says, where it is not before the newest moment, and what
/// stands behind its LF, where `number_before` reads it.
#[inline(always)]
pub fn front_sized_moment(newest: Moment, text: &[u8]) -> Option<((Moment, u32), &[u8])>
    ensures { IfSome result (λ front. (line : List ℕ) × IsFirstLine text.now line front.1.now
        × (sized_since newest line ≡ Some front.0)) }
{
    let (nanoseconds, sizes) = number_before(b' ', text)?;
    let (bytes, rest) = number_before(b'\n', sizes)?;
    let (moment, size) = sized_of(nanoseconds, bytes)?;
    if moment.get() < newest.get() {
        return None;
    }
    Some(((moment, u32::from(size.get())), rest))
}

/// The arrival that a line says, `MOMENT SIZE COLOUR`: the line's number is the packet's.
#[inline(never)]
#[tactic(auto, using(crate::proofs::ArrivalLemmas::other_arrival), unfolding(crate::specs::Arrivals::arrival_in))]
pub fn arrival(line_number: u64, line: &[u8]) -> Option<Arrival>
    ensures { result ≡ arrival_in line_number line.now }
{
    let (at, bytes, letter) = three_fields(line)?;
    Some(Arrival {
        flow: 0,
        packet: line_number,
        hop: 0,
        moment: moment(at)?,
        size: size(bytes)?,
        came: colour(letter)?,
    })
}

/// The sized moment that a line says, `MOMENT SIZE`, with the size in bytes.
#[inline(never)]
#[tactic(auto, using(crate::proofs::ArrivalLemmas::other_sized), unfolding(crate::specs::Arrivals::sized_in))]
fn sized(line: &[u8]) -> Option<(Moment, u32)>
    ensures { result ≡ sized_in line.now }
{
    let (at, bytes) = two_fields(line)?;
    Some((moment(at)?, u32::from(size(bytes)?.get())))
}

/// The sized moment that a line says, `MOMENT SIZE`, where it is not before the newest moment.
#[inline(always)]
pub fn sized_moment(newest: Moment, line: &[u8]) -> Option<(Moment, u32)>
    ensures { result ≡ sized_since newest line.now }
{
    let item = sized(line)?;
    if item.0.get() < newest.get() {
        None
    } else {
        Some(item)
    }
}

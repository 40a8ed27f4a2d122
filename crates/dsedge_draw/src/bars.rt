ghost use Rattle.std.specs.Prelude.{◌≡◌, ◌++◌, OnOk};
ghost use Rattle.dsedge_draw.specs.Bars.{bar_colour, bar_text, full_of, meter_text, part_text, quoted};
ghost use Rattle.dsedge_draw.specs.Bars.{row_text, rows_text};

use ds_checker::{Headroom, Utilization};
use ds_domain_base::Name;
use itoa::Buffer;
use std::alloc::AllocError;

/// The colour of the bars of green packets, and that of those of green and yellow ones.
const GREEN: &[u8] = b"#59a14f";

const YELLOW: &[u8] = b"#e0b000";

/// Appends a name in quotes, as DOT wants it: it may begin with a digit or hold a dash.
#[tactic(auto, unfolding(crate::specs::Bars::quoted))]
pub(crate) fn push_quoted(text: &mut Vec<u8>, name: Name) -> Result<(), AllocError>
    ensures { OnOk result (text.new.items ≡ text.old.items ++ quoted name) }
{
    text.push(b'"')?;
    text.extend_from_slice(name.bytes())?;
    text.push(b'"')?;
    Ok(())
}

/// Appends the node of a meter: its name, and a bar for each test of the checker there.
#[tactic(auto, unfolding(crate::specs::Bars::meter_text))]
pub(crate) fn push_meter(
    text: &mut Vec<u8>,
    name: Name,
    headroom: &Headroom,
) -> Result<(), AllocError>
    ensures { OnOk result (text.new.items ≡ text.old.items ++ meter_text name headroom.now) }
{
    push_quoted(text, name)?;
    text.extend_from_slice(
        b" [label=<<table border=\"1\" color=\"#666666\" cellborder=\"0\" cellspacing=\"2\" cellpadding=\"2\">\n",
    )?;
    text.extend_from_slice(b"<tr><td colspan=\"3\"><b>")?;
    text.extend_from_slice(name.bytes())?;
    text.extend_from_slice(b"</b></td></tr>\n")?;
    push_rows(text, headroom)?;
    text.extend_from_slice(b"</table>>];\n")?;
    Ok(())
}

/// Appends the rows of the four tests at a meter.
#[tactic(auto, unfolding(crate::specs::Bars::rows_text))]
fn push_rows(text: &mut Vec<u8>, headroom: &Headroom) -> Result<(), AllocError>
    ensures { OnOk result (text.new.items ≡ text.old.items ++ rows_text headroom.now) }
{
    push_row(text, b"green rate", GREEN, b" bit/s", headroom.green_rate)?;
    push_row(text, b"green burst", GREEN, b" bytes", headroom.green_burst)?;
    push_row(text, b"all rate", YELLOW, b" bit/s", headroom.all_rate)?;
    push_row(text, b"all burst", YELLOW, b" bytes", headroom.all_burst)?;
    Ok(())
}

/// Appends the row of a test: what it is of, its bar, and what is taken of what there is.
#[tactic(auto, unfolding(crate::specs::Bars::row_text))]
fn push_row(
    text: &mut Vec<u8>,
    label: &[u8],
    colour: &[u8],
    unit: &[u8],
    of: Utilization,
) -> Result<(), AllocError>
    ensures { OnOk result (text.new.items ≡ text.old.items ++ row_text label.now colour.now unit.now of) }
{
    text.extend_from_slice(b"<tr><td align=\"left\">")?;
    text.extend_from_slice(label)?;
    text.extend_from_slice(b"</td>")?;
    push_bar(text, colour, of)?;
    text.extend_from_slice(b"<td align=\"right\">")?;
    text.extend_from_slice(Buffer::new().format(of.taken).as_bytes())?;
    text.extend_from_slice(b" of ")?;
    text.extend_from_slice(Buffer::new().format(of.available).as_bytes())?;
    text.extend_from_slice(unit)?;
    text.extend_from_slice(b"</td></tr>\n")?;
    Ok(())
}

/// Appends a bar of a colour: the part that is full, and then the one that is empty.
#[tactic(auto, unfolding(crate::specs::Bars::bar_text))]
fn push_bar(text: &mut Vec<u8>, colour: &[u8], of: Utilization) -> Result<(), AllocError>
    ensures { OnOk result (text.new.items ≡ text.old.items ++ bar_text colour.now of) }
{
    let full = full_of(of);
    text.extend_from_slice(
        b"<td><table border=\"1\" color=\"#999999\" cellborder=\"0\" cellspacing=\"0\" cellpadding=\"0\"><tr>",
    )?;
    push_part(text, bar_colour(colour, of), full)?;
    push_part(text, b"#ffffff", 100u128.saturating_sub(full))?;
    text.extend_from_slice(b"</tr></table></td>")?;
    Ok(())
}

/// Of a bar of 100 the whole part that is full; all of it where no less is taken than there is.
#[tactic(auto, unfolding(crate::specs::Bars::full_of))]
fn full_of(of: Utilization) -> u128
    ensures { result ≡ full_of of }
{
    if of.taken < of.available {
        of.taken.saturating_mul(100) / of.available
    } else {
        100
    }
}

/// The colour of a bar: red where the checker refuses.
#[tactic(auto, unfolding(crate::specs::Bars::bar_colour))]
fn bar_colour<'a>(colour: &'a [u8], of: Utilization) -> &'a [u8]
    ensures { result.now ≡ bar_colour colour.now of }
{
    if of.taken > of.available {
        b"#d62728"
    } else {
        colour
    }
}

/// Appends a part of a bar; nothing where it has no width.
#[tactic(auto, unfolding(crate::specs::Bars::part_text))]
fn push_part(text: &mut Vec<u8>, colour: &[u8], width: u128) -> Result<(), AllocError>
    ensures { OnOk result (text.new.items ≡ text.old.items ++ part_text colour.now width) }
{
    if width == 0 {
        return Ok(());
    }
    text.extend_from_slice(b"<td fixedsize=\"true\" height=\"8\" bgcolor=\"")?;
    text.extend_from_slice(colour)?;
    text.extend_from_slice(b"\" width=\"")?;
    text.extend_from_slice(Buffer::new().format(width).as_bytes())?;
    text.extend_from_slice(b"\"></td>")?;
    Ok(())
}

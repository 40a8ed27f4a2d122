ghost use Rattle.std.specs.Prelude.{◌≡◌, ◌++◌, OnOk, codes};
ghost use Rattle.arrayvec.specs.ArrayVec.{array_vec_len};
ghost use Rattle.dsedge_texts.specs.Wording.{column_text, figure, name_of};
ghost use Rattle.dsedge_audit.specs.Audited.{verdict_line};
ghost use Rattle.dsedge_audit.specs.SiteNames.{site_name};

use crate::names::{write_name, write_site};
use ds_checker::Accepted;
use ds_domain_base::BoxedContract;
use dsedge_texts::column_text;
use dsedge_texts::line::{Line, push, push_figure};
use moment_core::Column;
use run_audit::Verdict;
use std::alloc::AllocError;
use std::marker::Model;

/// The line of a verdict on a run of a table. To make one takes no memory.
#[derive(Debug, Drop)]
pub struct VerdictLine {
    text: Line,
}

impl Model for VerdictLine {
    ghost use Rattle.std.specs.Prelude.{ℕ, List};

    ghost Value = { List ℕ };

    ghost view = { λ line. line.text.items };
}

impl VerdictLine {
    /// The line of a verdict, with the names that a table has.
    pub fn new(accepted: &Accepted, verdict: &Verdict) -> Self
        ensures { result ≡ verdict_line accepted.now verdict.now }
    {
        let mut text = Line::new();
        write_verdict(&mut text, accepted, verdict);
        VerdictLine { text }
    }

    /// Its text, which ends with LF.
    pub fn bytes(&self) -> &[u8]
        ensures { result.now ≡ self.now }
    {
        self.text.as_slice()
    }
}

/// Appends the line of a verdict on a run of a table.
pub fn push_verdict(
    text: &mut Vec<u8>,
    accepted: &Accepted,
    verdict: &Verdict,
) -> Result<(), AllocError>
    ensures { OnOk result (text.new.items ≡ text.old.items ++ verdict_line accepted.now verdict.now) }
{
    text.extend_from_slice(VerdictLine::new(accepted, verdict).bytes())
}

/// Writes the line of a verdict on a run of a table.
fn write_verdict(line: &mut Line, accepted: &Accepted, verdict: &Verdict)
    requires { array_vec_len line.old ≡ 0 }
    ensures { line.new.items ≡ line.old.items ++ verdict_line accepted.now verdict.now }
{
    match *verdict {
        Verdict::Kept => push(line, b"kept\n"),
        Verdict::OutsideContract { packet } => {
            push(line, b"outside");
            push_figure(line, u128::from(packet));
            push(line, b"\n");
        }
        Verdict::SourceOver {
            flow,
            column,
            packet,
        } => write_source(line, accepted.contracts(), flow, column, packet),
        Verdict::DelayOver { packet, hop } => {
            push(line, b"delay-over");
            push_figure(line, u128::from(packet));
            push_figure(line, u128::from(hop));
            push(line, b"\n");
        }
        Verdict::Late { site, place, late } => write_late(line, accepted, site, place, late.get()),
    }
}

/// Writes that a contract's packets in a column are over its envelope, and with which packet.
fn write_source(
    line: &mut Line,
    contracts: &[BoxedContract],
    flow: u32,
    column: Column,
    packet: u64,
)
    requires { array_vec_len line.old ≡ 0 }
    ensures { line.new.items ≡ line.old.items ++ codes "source-over " ++ name_of contracts.now flow ++ codes " "
        ++ column_text column ++ figure packet ++ codes "\n" }
{
    push(line, b"source-over ");
    write_name(line, contracts, flow as usize);
    push(line, b" ");
    push(line, column_text(column).as_bytes());
    push_figure(line, u128::from(packet));
    push(line, b"\n");
}

/// Writes that the row of a site's journal at a place was metered so many nanoseconds late.
fn write_late(line: &mut Line, accepted: &Accepted, site: u32, place: u64, late: u64)
    requires { array_vec_len line.old ≡ 0 }
    ensures { line.new.items
        ≡ line.old.items ++ codes "late " ++ site_name accepted.now site ++ figure place ++ figure late ++ codes "\n" }
{
    push(line, b"late ");
    write_site(line, accepted, site);
    push_figure(line, u128::from(place));
    push_figure(line, u128::from(late));
    push(line, b"\n");
}

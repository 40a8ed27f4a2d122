ghost use Rattle.std.specs.Prelude.{◌≡◌, ◌++◌, MatchResult, is_ok, if◌then◌else◌};
ghost use Rattle.pcap_capture.specs.Counts.{next_count};
ghost use Rattle.pcap_capture.specs.Fronts.{IsFrontOf};
ghost use Rattle.dsedge_report.specs.Reports.{colours_text, counts_text, report_text};

use ds_conditioner::Report;
use dsedge_faults::give_parts;
use itoa::Buffer;
use pcap_capture::{DeviceFault, Outlet};

/// Writes the lines of a report: its counts, and its accounts by colour.
pub fn tell_report<F: Outlet>(report: &Report, faults: &mut F) -> Result<(), DeviceFault>
    ensures told { F.tells faults.old → F.tells faults.new }
    ensures line { F.tells faults.old → MatchResult result
        (λ _. F.held faults.new ≡ F.held faults.old ++ report_text report.now)
        (λ _. IsFrontOf (F.held faults.old) (report_text report.now) (F.held faults.new)) }
    ensures failures { F.failed faults.new
        ≡ (if is_ok result then F.failed faults.old else next_count (F.failed faults.old)) }
{
    tell_counts(report, faults)?;
    tell_colours(report, faults)
}

/// Writes the lines of a report's counts of frames.
fn tell_counts<F: Outlet>(report: &Report, faults: &mut F) -> Result<(), DeviceFault>
    ensures told { F.tells faults.old → F.tells faults.new }
    ensures line { F.tells faults.old → MatchResult result
        (λ _. F.held faults.new ≡ F.held faults.old ++ counts_text report.now)
        (λ _. IsFrontOf (F.held faults.old) (counts_text report.now) (F.held faults.new)) }
    ensures failures { F.failed faults.new
        ≡ (if is_ok result then F.failed faults.old else next_count (F.failed faults.old)) }
{
    give_parts(
        faults,
        &[
            "records ",
            Buffer::new().format(report.records),
            "\n",
            "marked ",
            Buffer::new().format(report.marked),
            "\n",
            "unmatched ",
            Buffer::new().format(report.unmatched),
            "\n",
            "skipped ",
            Buffer::new().format(report.skipped),
            "\n",
            "unverified ",
            Buffer::new().format(report.unverified),
            "\n",
            "dropped ",
            Buffer::new().format(report.dropped),
            "\n",
        ],
    )
}

/// Writes the lines of a report's accounts: packets and bytes by colour.
fn tell_colours<F: Outlet>(report: &Report, faults: &mut F) -> Result<(), DeviceFault>
    ensures told { F.tells faults.old → F.tells faults.new }
    ensures line { F.tells faults.old → MatchResult result
        (λ _. F.held faults.new ≡ F.held faults.old ++ colours_text report.now)
        (λ _. IsFrontOf (F.held faults.old) (colours_text report.now) (F.held faults.new)) }
    ensures failures { F.failed faults.new
        ≡ (if is_ok result then F.failed faults.old else next_count (F.failed faults.old)) }
{
    give_parts(
        faults,
        &[
            "green ",
            Buffer::new().format(report.packets[0]),
            " ",
            Buffer::new().format(report.bytes[0]),
            "\n",
            "yellow ",
            Buffer::new().format(report.packets[1]),
            " ",
            Buffer::new().format(report.bytes[1]),
            "\n",
            "red ",
            Buffer::new().format(report.packets[2]),
            " ",
            Buffer::new().format(report.bytes[2]),
            "\n",
        ],
    )
}

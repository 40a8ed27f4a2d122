use ds_conductor::{MarkFault, Report};
use dsedge_answers::Conclusion;
use dsedge_audit::VerdictLine;
use dsedge_lines::PumpFault;
use pcap_capture::PcapFault;

/// How the report of a marking is told.
#[derive(Debug, Drop)]
pub enum ReportText {
    /// By its lines, with that of the verdict, where that is asked for and there is one.
    Lines(Option<VerdictLine>),
    /// By the line of its object; there is none where memory ran out for it.
    Object(Option<Vec<u8>>),
}

/// How a plan went.
#[derive(Debug, Drop)]
pub enum Outcome {
    /// A reply was given, or a device failed or memory ran out before its end.
    Answered(Result<Conclusion, PumpFault>),
    /// The domain has no contract of the plan's name, and nothing is answered.
    Unnamed,
    /// The contract of the plan's name has no such field, and nothing is answered.
    Misused,
    /// A capture was marked at the plan's port, with this report and this fault, if any; and so the report is told.
    Marked(Report, Option<MarkFault>, ReportText),
    /// The domain has no port of the plan's name, and nothing is answered.
    Portless,
    /// The arrivals of a capture were told, to its end, or to this fault.
    Told(Option<PcapFault>),
}

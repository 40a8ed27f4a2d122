use dsedge_explained::Findings;
use dsedge_faults::Advice;

/// How a plan ended.
#[derive(Clone, Copy, Debug, PartialEq, Eq)]
pub struct Ended {
    /// The exit status.
    pub status: u8,
    /// What there is to say behind the line that was told.
    pub advice: Option<Advice>,
}

/// How a plan ended that was served.
#[derive(Debug, Drop)]
pub struct Served {
    /// The exit status.
    pub status: u8,
    /// What there is to say behind the line that was told.
    pub advice: Option<Advice>,
    /// What there is to say of the verdict on a run; nothing where none was judged, and where it was kept.
    pub verdict: String,
}

/// How the program ended, and what was found on the way.
#[derive(Debug, Drop)]
pub struct Started {
    /// The exit status.
    pub status: u8,
    /// What there is to say behind the line that was told.
    pub advice: Option<Advice>,
    /// What there is to say more of.
    pub findings: Findings,
}

ghost use Rattle.std.specs.Prelude.{◌≡◌};
ghost use Rattle.ds_desk.specs.Faults.{look_code};

use thiserror::Error;

/// Why a look gave no table.
#[derive(Clone, Copy, Debug, PartialEq, Eq, Drop, Error)]
pub enum LookFault {
    /// The desk is gone, and its tables with it: no later look gives one.
    #[error("the desk is gone")]
    DeskGone,
    /// The page that is shown does not go as far as what the feed knows of, or the command of that page is not kept
    /// yet: a later look may give a table. A desk shows the page of a command before it answers it, so a feed that
    /// learned answers alone is not told this.
    #[error("the page does not go so far yet")]
    PageBehind,
}

impl LookFault {
    /// The fault's number: 1 where the desk is gone, 2 where the page does not go so far yet.
    pub fn code(&self) -> u8
        ensures { result ≡ look_code self.now }
    {
        match self {
            LookFault::DeskGone => 1,
            LookFault::PageBehind => 2,
        }
    }
}

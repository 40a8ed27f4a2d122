//! The laws of timelines, each proved as the contract of a function that does nothing.
ghost use Rattle.ds_checker.specs.Acceptance.{IsAcceptable, Table};
ghost use Rattle.ds_timeline.specs.Constant.{timeline_of};
ghost use Rattle.ds_timeline.specs.Timelines.{IsCovered};

/// An acceptable table that is never changed is covered.
pub fn an_acceptable_table_is_covered()
    ensures { (t : Table) → IsAcceptable t → IsCovered (timeline_of t) }
{}

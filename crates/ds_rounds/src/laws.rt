//! What rounds keep, proved as the contracts of functions that do nothing.
ghost use Rattle.ds_rounds.specs.Laws.{NoArrivalIsLate, NoVisitIsLate, OneCutAlone};

/// Visits are cut into rounds in one way alone: each round is as long as its rule allows, so no other lengths are those
/// of their rounds.
pub fn visits_are_cut_in_one_way()
    ensures { OneCutAlone }
{}

/// Where the moments of visits do not fall, and their rounds are made one after the other, the visits of each in any
/// order, a visit comes at most the skew before each of those that were made in front of it.
pub fn no_visit_is_late()
    ensures { NoVisitIsLate }
{}

/// So no arrival at a site is later than the skew, where none comes before its meter's origin.
pub fn no_arrival_is_late()
    ensures { NoArrivalIsLate }
{}

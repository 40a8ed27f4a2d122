//! What holds of a lane at each moment, and what each step of an end does to what that end knows.
ghost use mathlib.Core.List.{IsPrefix};
ghost use Rattle.std.specs.Prelude.{◌≡◌, List, [], ◌∷◌, ◌++◌};
ghost use Rattle.lane.specs.Rule.{known};

use crossbeam_channel::protocol::{Join, Lesson, Outcome, Protocol, Split};
use std::collections::LinkedList;

/// What an end of a lane knows: whether it puts and whether it takes, what was put, and what was taken, each oldest
/// first, and whole where it is the end's own. It stands in proofs alone: no value of it is made.
pub struct Known<T> {
    pub puts: bool,
    pub takes: bool,
    pub put: LinkedList<T>,
    pub taken: LinkedList<T>,
}

/// What was put is what was taken and then what the lane holds.
pub struct Ordered;

impl<T> Protocol<T, Known<T>> for Ordered {
    ghost use Rattle.std.specs.Prelude.{true, []};
    ghost use Rattle.lane.specs.Rule.{known, InOrder};

    ghost holds = { InOrder };

    ghost first = { known true true [] [] };
}

/// The one end that begins is cut into one that puts and one that takes, and the two are made one again.
pub struct Roles;

impl<T> Split<Known<T>> for Roles {
    ghost use Rattle.std.specs.Prelude.{true, false};
    ghost use Rattle.lane.specs.Rule.{known};

    ghost left = { λ v. known true false v.put v.taken };

    ghost right = { λ v. known false true v.put v.taken };
}

impl<T> Join<Known<T>> for Roles {
    ghost use Rattle.std.specs.Prelude.{true, false, []};
    ghost use Rattle.lane.specs.Rule.{known};

    ghost both = { λ v w. known true true v.put w.taken };

    ghost spent = { known false false [] [] };
}

/// One item more is put. Where the lane is full, what was put is what was taken and then what it holds.
pub struct Puts;

impl<T> Outcome<T, Known<T>> for Puts {
    ghost then = { λ v x w. w ≡ known v.puts v.takes (v.put ++ x ∷ []) v.taken };
}

impl<T> Lesson<T, Known<T>> for Puts {
    ghost fact = { λ v items. (taken : List T) × IsPrefix v.taken taken × (v.put ≡ taken ++ items) };
}

/// One item more is taken. Where the lane is empty, what was taken is all that was put.
pub struct Takes;

impl<T> Outcome<T, Known<T>> for Takes {
    ghost then = { λ v x w. w ≡ known v.puts v.takes v.put (v.taken ++ x ∷ []) };
}

impl<T> Lesson<T, Known<T>> for Takes {
    ghost fact = { λ v items. (put : List T) × IsPrefix v.put put × (put ≡ v.taken ++ items) };
}

/// One item more is taken of what both ends left, and this is the first of it.
pub struct Empties;

impl<T> Outcome<T, Known<T>> for Empties {
    ghost then = { λ v x w. (w ≡ known v.puts v.takes v.put (v.taken ++ x ∷ []))
        × ((items : List T) × (v.put ≡ v.taken ++ x ∷ items)) };
}

impl<T> Lesson<T, Known<T>> for Empties {
    ghost fact = { λ v items. v.put ≡ v.taken ++ items };
}

ghost use Rattle.std.specs.Prelude.{◌≡◌, true, false, [], length, MatchOption};
ghost use Rattle.ds_conditioner.specs.Conditionings.{AreMarksOf, IsSeenAtPort};

use crate::port::Port;
use crate::sending::{later, stamp_of};
use ds_conductor_base::OrderGuess;
use frame_marker::{Seen, Sight};
use moment_core::Moment;
use pcap_capture::Piece;
use std::alloc::Global;
use std::marker::Model;

/// Frames that were read at once, and what was seen of them, once that was done. Its value has the frames in their
/// order.
#[derive(Drop)]
pub struct Lot {
    piece: Piece,
    is_seen: bool,
    seen: Vec<Seen>,
    /// A guess at the order in which the packets of the frames come to their stops.
    guess: OrderGuess,
}

impl Model for Lot {
    ghost use Rattle.std.specs.Prelude.{◌≡◌, true};
    ghost use Rattle.std.specs.List.{AllZip};
    ghost use Rattle.frame_marker.specs.Marks.{IsMarkOf};
    ghost use Rattle.ds_conditioner.specs.Lots.{LotValue};

    ghost Value = { LotValue };

    ghost view = { λ l. record { frames = l.piece; is_seen = l.is_seen; seen = l.seen.items } };

    ghost invariant = { λ l. l.is_seen ≡ true
        → AllZip (λ f s. IsMarkOf s.mark f.bytes) l.piece l.seen.items };
}

impl Lot {
    /// The frames of a piece, which were not seen yet.
    pub fn unseen(alloc: Global, piece: Piece) -> Self
        ensures { result ≡ record { frames = piece; is_seen = false; seen = [] } }
    {
        Lot {
            piece,
            is_seen: false,
            seen: Vec::new(alloc),
            guess: OrderGuess::nothing(alloc),
        }
    }

    /// How many frames it has.
    pub fn len(&self) -> usize
        ensures { result ≡ length self.now.frames }
    {
        self.piece.len()
    }

    /// Whether its frames were seen.
    pub fn is_seen(&self) -> bool
        ensures { result ≡ self.now.is_seen }
    {
        self.is_seen
    }

    /// Sees its frames at a port. Where memory runs out they stay unseen.
    pub fn see(&mut self, alloc: Global, port: &Port<'_>)
        ensures frames { self.new.frames ≡ self.old.frames }
        ensures seen { IsSeenAtPort port.now self.new }
    {
        match port.see_all(alloc, &self.piece) {
            Ok(seen) => {
                self.guess = guess_of(alloc, port, &self.piece, &seen);
                self.seen = seen;
                self.is_seen = true;
            }
            Err(_) => self.is_seen = false,
        }
    }

    /// Its frames, what was seen of them, if they were seen, and a guess at the order of what they send.
    pub fn parts(self) -> (Piece, Option<Vec<Seen>>, OrderGuess)
        ensures frames { result.0 ≡ self.frames }
        ensures seen { MatchOption result.1 (self.is_seen ≡ false)
            (λ seen. (self.is_seen ≡ true) × (seen.items ≡ self.seen) × AreMarksOf result.0 seen.items) }
    {
        let Lot {
            piece,
            is_seen,
            seen,
            guess,
        } = self;
        if is_seen {
            (piece, Some(seen), guess)
        } else {
            (piece, None, guess)
        }
    }
}

/// A guess at the order of the visits that the packets of frames make, of which this was seen; that of none where
/// memory runs out.
fn guess_of(alloc: Global, port: &Port<'_>, piece: &Piece, seen: &[Seen]) -> OrderGuess {
    let mut guess = OrderGuess::nothing(alloc);
    let mut newest = Moment::new(0).unwrap();
    for place in 0..piece.len().min(seen.len()) {
        newest = later(newest, stamp_of(&piece.frame(place)));
        if let Sight::Matched { flow, .. } = seen[place].sight {
            if guess.add(newest, port.timetable.stops(flow)).is_err() {
                return OrderGuess::nothing(alloc);
            }
        }
    }
    guess.settle();
    guess
}

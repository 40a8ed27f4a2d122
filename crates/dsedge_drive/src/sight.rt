//! What a feed sees.
ghost use Rattle.std.specs.Prelude.{◌≡◌, IfSome, length};
ghost use mathlib.Core.List.{IsPrefix};
ghost use Rattle.ds_broker.specs.Histories.{standing_of};

use core::mem::replace_with;
use ds_desk::{Feed, Front, Naming};

/// What a feed sees of a broker's table.
#[derive(Clone, Copy, Debug, PartialEq, Eq, Drop)]
pub struct Sight {
    /// How many commands are behind it.
    pub serial: u32,
    /// How many contracts it holds.
    pub contracts: usize,
}

/// Looks through a feed, which comes back with what it saw, or where it was handed back, without.
fn looked<J: Naming>(feed: Feed<J>) -> (Feed<J>, Option<Sight>)
    ensures kept { IsPrefix feed result.0 }
    ensures sight { IfSome result.1 (λ sight. (sight.serial ≡ length result.0)
        × (sight.contracts ≡ length (standing_of result.0).held)) }
{
    match feed.look() {
        Ok(seen) => {
            let sight = Sight {
                serial: seen.serial().get(),
                contracts: seen.table().contracts().len(),
            };
            (seen.end(), Some(sight))
        }
        Err((feed, _fault)) => (feed, None),
    }
}

/// What a feed sees, if it is not handed back.
pub(crate) fn look<J: Naming>(feed: &mut Feed<J>) -> Option<Sight>
    ensures kept { IsPrefix feed.old feed.new }
    ensures sight { IfSome result (λ sight. (sight.serial ≡ length feed.new)
        × (sight.contracts ≡ length (standing_of feed.new).held)) }
{
    replace_with(feed, (), |feed: Feed<J>, _: ()| looked(feed))
}

/// Lets a feed learn what an answer rests on.
pub(crate) fn learn<J: Naming>(feed: &mut Feed<J>, front: &Front<J>)
    ensures { IsPrefix front.now feed.new }
{
    replace_with(
        feed,
        front,
        |feed: Feed<J>, front: &Front<J>| (feed.learn(front), ()),
    )
}

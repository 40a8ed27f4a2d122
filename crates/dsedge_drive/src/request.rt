ghost use Rattle.std.specs.Prelude.{◌≡◌, ◌∷◌, [], option_map};
ghost use Rattle.std.specs.Option.{option_copied};
ghost use Rattle.line_text.specs.Lines.{fields_left, fields_of, has_byte};
ghost use Rattle.dsedge_drive.specs.Requests.{alone, quote_of, request_in, reserve_of, timed_of};

use ds_offers::Offers;
use ds_quotes::Asked;
use dsedge_lines::moment;
use line_text::{number, split_field, two_fields};
use moment_core::Moment;

/// What a line asks of a broker.
#[derive(Clone, Copy, Debug, PartialEq, Eq, Drop)]
pub enum Request {
    /// To grant the contract at this place of those that are offered; none has the name where there is no place.
    Reserve(Option<usize>),
    /// To end the contract of an id.
    Release {
        /// The id.
        id: u64,
        /// The moment of its end.
        at: Moment,
    },
    /// To give the share of a released contract back.
    Retire {
        /// Its id.
        id: u64,
        /// The moment at which it is given back.
        moment: Moment,
    },
    /// To tell the greatest value of a field of the contract at this place of those that are offered, or how many like it
    /// fit.
    Quote {
        /// The place; none has the name where there is none.
        place: Option<usize>,
        /// What is asked for.
        asked: Asked,
    },
    /// To tell what is taken and what there is at each meter.
    Headroom,
    /// To tell the contracts that are held.
    List,
    /// To tell what a feed sees.
    Look,
}

/// What a line asks for, `reserve NAME`, `release ID MOMENT`, `retire ID MOMENT`, `quote NAME FIELD`, `quote NAME
/// count`, `headroom`, `list` or `look`, if for anything.
#[tactic(auto, unfolding(crate::specs::Requests::request_in))]
pub fn asked(offers: &Offers, line: &[u8]) -> Option<Request>
    ensures { result ≡ request_in offers.now line.now }
{
    let (verb, rest) = split_field(line);
    if verb == b"reserve".as_slice() {
        reserve(offers, rest?)
    } else if verb == b"release".as_slice() {
        release(rest?)
    } else if verb == b"retire".as_slice() {
        retire(rest?)
    } else if verb == b"quote".as_slice() {
        quote(offers, rest?)
    } else if verb == b"headroom".as_slice() {
        alone(Request::Headroom, rest)
    } else if verb == b"list".as_slice() {
        alone(Request::List, rest)
    } else if verb == b"look".as_slice() {
        alone(Request::Look, rest)
    } else {
        None
    }
}

/// What a word asks for that stands alone.
#[tactic(auto, using(crate::proofs::RequestLaws::not_alone))]
fn alone(request: Request, rest: Option<&[u8]>) -> Option<Request>
    ensures { result ≡ alone request (fields_left (option_copied rest.entry)) }
{
    match rest {
        None => Some(request),
        Some(_) => None,
    }
}

/// Whether a name has a CR.
#[tactic(auto, unfolding(line_text::specs::Lines::has_byte))]
pub(crate) fn has_return(name: &[u8]) -> bool
    ensures { result ≡ has_byte 13 name.now }
{
    name.iter().any(|byte| *byte == b'\r')
}

/// What `reserve` asks for with what stands behind it: one name.
#[tactic(auto, using(crate::proofs::RequestLaws::not_one))]
fn reserve(offers: &Offers, fields: &[u8]) -> Option<Request>
    ensures { result ≡ reserve_of offers.now (fields_of fields.now) }
{
    let (name, more) = split_field(fields);
    match more {
        None => reserve_named(offers, name),
        Some(_) => None,
    }
}

/// What `reserve` asks for with a name, which has no CR.
fn reserve_named(offers: &Offers, name: &[u8]) -> Option<Request>
    ensures { result ≡ reserve_of offers.now (name.now ∷ []) }
{
    if has_return(name) {
        return None;
    }
    Some(Request::Reserve(offers.place(name)))
}

/// What `quote` asks for with what stands behind it: a name, which has no CR, and the word of a field, or `count`.
#[tactic(auto, using(crate::proofs::RequestLaws::no_quote))]
fn quote(offers: &Offers, fields: &[u8]) -> Option<Request>
    ensures { result ≡ quote_of offers.now (fields_of fields.now) }
{
    let (name, word) = two_fields(fields)?;
    if has_return(name) {
        return None;
    }
    let asked = Asked::named(word)?;
    let place = offers.place(name);
    Some(Request::Quote { place, asked })
}

/// What `release` asks for with what stands behind it.
fn release(fields: &[u8]) -> Option<Request>
    ensures { result ≡ option_map (λ t. Request.Release t.0 t.1) (timed_of (fields_of fields.now)) }
{
    let (id, at) = timed(fields)?;
    Some(Request::Release { id, at })
}

/// What `retire` asks for with what stands behind it.
fn retire(fields: &[u8]) -> Option<Request>
    ensures { result ≡ option_map (λ t. Request.Retire t.0 t.1) (timed_of (fields_of fields.now)) }
{
    let (id, moment) = timed(fields)?;
    Some(Request::Retire { id, moment })
}

/// The id and the moment that two fields say.
#[tactic(auto, using(crate::proofs::RequestLaws::not_two))]
fn timed(fields: &[u8]) -> Option<(u64, Moment)>
    ensures { result ≡ timed_of (fields_of fields.now) }
{
    let (id, at) = two_fields(fields)?;
    let id = number(id, u64::MAX)?;
    let at = moment(at)?;
    Some((id, at))
}

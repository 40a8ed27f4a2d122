ghost use Rattle.std.specs.Prelude.{◌≡◌, ◌<◌, ◌≤◌, ◌+◌, ◌-◌, ◌*◌, ◌^◌, IfSome, length, nat_le};
ghost use Rattle.ds_checker.specs.Besides.{rest_of};
ghost use Rattle.ds_domain_base.specs.Routes.{route_of};
ghost use Rattle.ds_quotes.specs.Counts.{IsCount, all_grow_within, count_of, first_rate_of, grows_within, has_room};

use crate::passing::{Trial, passing_below};
use ds_checker::{Accepted, Beside, Growth, Utilization};
use ds_domain_base::{Contract, Domain, Route};

/// What is taken at the meters of a contract's path with one contract like it, and with two: numbers of further ones are
/// tried.
#[derive(Drop)]
struct Alike {
    growths: [Growth; 16],
}

impl Trial for Alike {
    ghost use Rattle.std.specs.Prelude.{⊤};
    ghost use Rattle.ds_quotes.specs.Counts.{all_grow_within};

    ghost takes = { λ a value. ⊤ };

    ghost outcome = { λ a value. all_grow_within value a.growths };

    fn passes(&self, value: u64) -> bool {
        all_grow_within(value, &self.growths)
    }
}

/// Whether at each meter so many contracts come behind the first one that still have room there.
fn all_grow_within(more: u64, growths: &[Growth]) -> bool
    ensures { result ≡ all_grow_within more growths.now }
{
    growths.iter().all(|growth| grows_within(more, growth))
}

/// Whether at a meter so many contracts come behind the first one that still have room there.
fn grows_within(more: u64, growth: &Growth) -> bool
    ensures { result ≡ grows_within more growth.now }
{
    let (one, two) = (&growth.one, &growth.two);
    has_room(more, one.green_rate, two.green_rate)
        && has_room(more, one.green_burst, two.green_burst)
        && has_room(more, one.all_rate, two.all_rate)
        && has_room(more, one.all_burst, two.all_burst)
}

/// Whether so many contracts come behind the first one that still have room, where each takes as much more as the second.
fn has_room(more: u64, one: Utilization, two: Utilization) -> bool
    ensures { result ≡ has_room more one two }
{
    stays_within(more, one.taken, two.taken, one.available)
}

/// Whether no more than what there is is taken by one, and by so many behind it, of which each takes as much more as the
/// second.
fn stays_within(more: u64, one: u128, two: u128, available: u128) -> bool
    ensures { result ≡ nat_le (one + more * (two - one)) available }
{
    let step = two.saturating_sub(one);
    match step.checked_mul(u128::from(more)) {
        Some(grown) => match one.checked_add(grown) {
            Some(taken) => taken <= available,
            None => false,
        },
        None => false,
    }
}

/// How many contracts like one fit at most beside what a table holds but the contract at a place, if one is left out: each
/// of its own name and its own rule, and all with the port, the path and the terms of this one. With so many the table is
/// acceptable, by their least bounds, and with one more it is not; 0 where it is not with one.
///
/// It tests at most 44 numbers, each in the time of the contract's path, on the sums that the table keeps, and takes no
/// memory.
pub fn count_without(accepted: &Accepted, left_out: Option<usize>, contract: &Contract) -> u64
    requires { IfSome left_out (λ place. place < length accepted.now.contracts) }
    ensures count { IsCount (rest_of accepted.now left_out) contract.now result }
    ensures value { result ≡ count_of (rest_of accepted.now left_out) contract.now }
{
    let domain = accepted.domain();
    let route = match domain.route(contract) {
        Ok(route) => route,
        Err(_) => return 0,
    };
    let most = first_rate(domain, &route);
    match left_out {
        None => count_on(&accepted.beside(contract, &route), most),
        Some(place) => count_on(&accepted.rest(place, contract, &route).beside(), most),
    }
}

/// How many contracts like one fit at most beside a table, where no more do than the first meter of its path gives green
/// packets of bits a second.
fn count_on(beside: &Beside<'_>, most: u64) -> u64
    requires most { most ≡ first_rate_of beside.now.table.domain.meters
        (route_of beside.now.table.domain beside.now.contract).legs }
    requires range { most ≤ 10 ^ 13 }
    ensures count { IsCount beside.now.table beside.now.contract result }
    ensures value { result ≡ count_of beside.now.table beside.now.contract }
{
    let alike = Alike {
        growths: beside.growths(),
    };
    passing_below(&alike, most)
}

/// The committed rate of the first meter of a route, in bits per second; 0 where there is none.
fn first_rate(domain: &Domain, route: &Route) -> u64
    ensures value { result ≡ first_rate_of domain.now.meters route.now.legs }
    ensures range { result ≤ 10 ^ 13 }
{
    let Some(leg) = route.legs().first() else {
        return 0;
    };
    match domain.meters().get_index(leg.place) {
        Some((_, meter)) => meter.parameters.get().green_limit().rate(),
        None => 0,
    }
}

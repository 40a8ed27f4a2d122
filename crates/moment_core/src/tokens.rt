ghost use Rattle.std.specs.Prelude.{◌≡◌, ◌+◌, ◌-◌, ◌*◌, ◌/◌, ◌%◌, ◌≤◌, ◌<◌, ◌^◌, IfSome};
ghost use Rattle.moment_core.specs.Tokens.{given};

use crate::quantity::{Gap, Moment, Rate};

/// The bit-nanoseconds of one token: a token is a byte, and a second has 10^9 nanoseconds.
pub const TOKEN: u64 = 8_000_000_000;

/// The tokens that a bucket of this rate, full at its origin, has been given up to a moment: the rate times the time
/// since the origin, in whole bytes. It is 0 at the origin, and below 2^77.
#[tactic(auto, unfolding(crate::specs::Tokens::given))]
pub fn tokens_given(rate: Rate, origin: Moment, moment: Moment) -> u128
    requires { origin ≤ moment }
    ensures value { result ≡ given rate origin moment }
    ensures range { result < 2 ^ 77 }
{
    let elapsed = moment.get() - origin.get();
    u128::from(rate.get()) * u128::from(elapsed) / u128::from(TOKEN)
}

/// The tokens that a bucket of this rate is given after `begin` and up to `end`, counted from its origin, so that the
/// tokens of adjoining spans add up with no fraction lost (RFC 2697 section 3, RFC 2698 section 3).
pub fn tokens_between(rate: Rate, origin: Moment, begin: Moment, end: Moment) -> u128
    requires begins { origin ≤ begin }
    requires ends { begin ≤ end }
    ensures { result ≡ given rate origin end - given rate origin begin }
{
    tokens_given(rate, origin, end) - tokens_given(rate, origin, begin)
}

/// The whole tokens that a rate gives over a gap beside the part of a token that it gave before, `carry`; from then on
/// `carry` is the part that is over, in bit-nanoseconds. So no fraction is lost from one gap to the next. One division,
/// in 64 bits where the bit-nanoseconds fit them.
pub fn tokens_over(rate: Rate, gap: Gap, carry: &mut u64) -> u128
    ensures tokens { result ≡ (rate * gap + carry.old) / 8000000000 }
    ensures carry { carry.new ≡ (rate * gap + carry.old) % 8000000000 }
{
    match narrow_over(rate, gap, *carry) {
        Some(given) => {
            let tokens = given / TOKEN;
            *carry = given % TOKEN;
            u128::from(tokens)
        }
        None => {
            let given = u128::from(rate.get()) * u128::from(gap.get()) + u128::from(*carry);
            let tokens = given / u128::from(TOKEN);
            *carry = (given - tokens * u128::from(TOKEN)) as u64;
            tokens
        }
    }
}

/// The bit-nanoseconds of a rate over a gap and those of a begun token, where they fit 64 bits.
fn narrow_over(rate: Rate, gap: Gap, carry: u64) -> Option<u64>
    ensures { IfSome result (λ given. given ≡ rate * gap + carry) }
{
    rate.get().checked_mul(gap.get())?.checked_add(carry)
}

ghost use Rattle.std.specs.Prelude.{◌≡◌, ◌≤◌, ◌^◌};
ghost use Rattle.device_core.specs.Doubles.{rounded_up, whole_part};

use std::num::{nearest_u64_to_f64, saturating_f64_to_u64};

/// The whole part of a double that is not negative, as a cast to a whole number of 64 bits has it.
#[tactic(auto, unfolding(crate::specs::Doubles::whole_part))]
pub(crate) fn whole_part(number: f64) -> u64
    ensures { result ≡ whole_part number }
{
    saturating_f64_to_u64(number)
}

/// The least whole number that is not below such a double.
#[tactic(auto, unfolding(crate::specs::Doubles::rounded_up))]
pub(crate) fn rounded_up(number: f64) -> u128
    ensures value { result ≡ rounded_up number }
    ensures range { result ≤ 2 ^ 64 }
{
    let whole = whole_part(number);
    if nearest_u64_to_f64(whole) < number {
        u128::from(whole) + 1
    } else {
        u128::from(whole)
    }
}

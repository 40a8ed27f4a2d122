//! Of what is found at numbers, that at the least.
ghost use Rattle.std.specs.Prelude.{◌≡◌};
ghost use Rattle.run_audit.specs.Leasts.{lesser, told};

use crate::verdict::Verdict;

/// What was found so far, if anything, behind its number, or what is found at a number, where that is less.
pub(crate) fn lesser(
    least: Option<(u64, Verdict)>,
    number: u64,
    found: Option<Verdict>,
) -> Option<(u64, Verdict)>
    ensures { result ≡ lesser least number found }
{
    let Some(found) = found else {
        return least;
    };
    match least {
        Some((earlier, _)) if earlier <= number => least,
        _ => Some((number, found)),
    }
}

/// The same without its number.
pub(crate) fn told(least: Option<(u64, Verdict)>) -> Option<Verdict>
    ensures { result ≡ told least }
{
    let (_, found) = least?;
    Some(found)
}

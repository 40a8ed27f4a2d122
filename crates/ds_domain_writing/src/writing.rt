ghost use Rattle.std.specs.Prelude.{◌≡◌, Err, IfOk, Ok, length, nat_lt, true};
ghost use Rattle.ds_domain.specs.DomainTexts.{parse_of};
ghost use Rattle.ds_domain_base.specs.Faults.{fault_at};

use crate::same::{are_same, is_same_domain};
use crate::text::text_of;
use ds_domain::{BoxedContract, Domain, DomainFault, Field, Kind, Section, parse};
use std::alloc::Global;

/// The greatest number of contracts of a domain text.
const MOST_CONTRACTS: usize = 4096;

/// The text of a domain with some contracts, which `parse` reads as just these: what was written is read again and
/// compared, and given out only where it says the same.
///
/// Refused with the fault that the text has: `Range` at `contract` where there are more than 4,096, then the first that
/// `parse` finds, as of a contract with a part that the domain's version does not have; `Text` where it says something
/// else; `NoMemory` where memory runs out.
pub fn write(
    alloc: Global,
    domain: &Domain,
    contracts: &[BoxedContract],
) -> Result<Vec<u8>, DomainFault>
    ensures reads { IfOk result (λ text. parse_of text.items ≡ Ok (domain.now, contracts.now)) }
    ensures many { nat_lt 4096 (length contracts.now) ≡ true →
        result ≡ Err (fault_at Kind.Range Section.Top 0 Field.Contract) }
{
    if contracts.len() > MOST_CONTRACTS {
        return Err(DomainFault::new(Kind::Range, Section::Top, 0, Field::Contract));
    }
    let text = text_of(alloc, domain, contracts)?;
    let (read, held) = parse(alloc, text.as_slice())?;
    if is_same_domain(&read, domain) && are_same(held.as_slice(), contracts) {
        Ok(text)
    } else {
        Err(DomainFault::new(Kind::Text, Section::Text, 0, Field::Empty))
    }
}

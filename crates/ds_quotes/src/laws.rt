//! The laws of quotes, each proved as the contract of a function that does nothing.
ghost use Rattle.std.specs.Prelude.{◌≡◌, ◌≤◌, ℕ, List, Some, slice_set};
ghost use Rattle.ds_domain_base.specs.Domains as domains;
ghost use Rattle.ds_domain_base.specs.declared.contract.Contract as contracts;
ghost use Rattle.ds_domain_base.specs.declared.terms.Terms as contract_terms;
ghost use Rattle.ds_checker.specs.Acceptance.{IsAcceptable};
ghost use Rattle.ds_checker.specs.Changes.{on_terms};
ghost use Rattle.ds_quotes.specs.Fields.{terms_with};
ghost use Rattle.ds_quotes.specs.Quotes.{with_least};
ghost use Rattle.ds_quotes.specs.declared.field.Field as fields;

/// A smaller rate or burst of one contract never makes contracts unacceptable that were acceptable with their least
/// certificate: in each field, whichever the contract is and wherever it stands.
pub fn a_smaller_value_is_acceptable_too()
    ensures { (d : domains.Domain) → (held : List contracts.Contract) → (place : ℕ) → (c : contracts.Contract)
        → (field : fields.Field) → (value more : ℕ) → (low high : contract_terms.Terms) → value ≤ more
        → terms_with field value c.terms ≡ Some low → terms_with field more c.terms ≡ Some high
        → IsAcceptable (with_least d (slice_set held place (on_terms high c)))
        → IsAcceptable (with_least d (slice_set held place (on_terms low c))) }
{}

//! The laws of acceptance, each proved as the contract of a function that does nothing.
ghost use Rattle.std.specs.Prelude.{◌≡◌, ◌↔◌, ◌⊎◌, ◌≤◌, true, nat_eq, List, [], None};
ghost use Rattle.std.specs.List.{AllByRecursion, list_any};
ghost use Rattle.ds_domain_base.specs.Domains as domains;
ghost use Rattle.ds_domain_base.specs.declared.contract.Contract as contracts;
ghost use Rattle.ds_certificate.specs.Bounds.{least};
ghost use Rattle.ds_certificate.specs.Columns as columns;
ghost use Rattle.ds_checker.specs.Acceptance.{IsAcceptable, Table, refusal_of};
ghost use Rattle.ds_checker.specs.Changes.{own_refusal, with_contract};
ghost use Rattle.ds_checker.specs.Holds.{hold_of, holds_of};

/// Nothing stands against a table exactly where it is acceptable: the tests in order miss nothing.
pub fn tests_miss_nothing()
    ensures { (t : Table) → (refusal_of t ≡ None) ↔ IsAcceptable t }
{}

/// Where any certificate of contracts is acceptable, the least one is.
pub fn least_is_acceptable_if_any_is()
    ensures { (t : Table) → IsAcceptable t → IsAcceptable (record t { certificate = least t.domain t.contracts }) }
{}

/// What stands against an acceptable table with one contract more is what stands against that contract in itself: its
/// shape, its bounds, and the meters of its path.
pub fn one_more_is_refused_for_its_own()
    ensures { (t : Table) → (c : contracts.Contract) → (bounds : List columns.Bound) → IsAcceptable t
        → refusal_of (with_contract t c bounds) ≡ own_refusal t c bounds }
{}

/// The hold of a contract is no less than the hold at any hop of its path in any column, and it is one of these, where
/// there is any.
pub fn hold_is_the_greatest()
    ensures least { (d : domains.Domain) → (c : contracts.Contract) → (bounds : List columns.Bound)
        → AllByRecursion (λ hold. hold ≤ hold_of d c bounds) (holds_of d c bounds) }
    ensures attained { (d : domains.Domain) → (c : contracts.Contract) → (bounds : List columns.Bound)
        → (holds_of d c bounds ≡ []) ⊎ (list_any (nat_eq (hold_of d c bounds)) (holds_of d c bounds) ≡ true) }
{}

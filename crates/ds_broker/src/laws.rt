//! The laws of a broker's book, each proved as the contract of a function that does nothing.
ghost use Rattle.std.specs.Prelude.{◌≡◌, ◌≤◌, ℕ, [], List, Some};
ghost use Rattle.ds_certificate.specs.Columns as columns;
ghost use Rattle.ds_checker.specs.Acceptance.{IsAcceptable};
ghost use Rattle.ds_checker.specs.declared.refusal.Refusal as refusals;
ghost use Rattle.ds_domain_base.specs.declared.contract.Contract as contracts;
ghost use Rattle.ds_timeline.specs.Timelines.{IsCovered, table_at};
ghost use Rattle.ds_broker.specs.Books.{Book, newest_of, table_of, with_command};
ghost use Rattle.ds_broker.specs.Refusals.{reserve_refusal};
ghost use Rattle.ds_broker.specs.Requests.{AreUnrefused, IsFoldOfAccepted, LeadsTo};
ghost use Rattle.ds_broker.specs.Timelines.{timeline_of};
ghost use Rattle.ds_broker.specs.declared.command.Command as commands;
ghost use Rattle.ds_broker.specs.declared.command.Command.TheVariants.{Reserve};
ghost use Rattle.ds_broker.specs.declared.refusal.BrokerRefusal.TheVariants.{Checker};

/// The checker refuses a contract only where no certificate of the larger table is acceptable.
pub fn a_contract_that_the_checker_refuses_has_no_certificate()
    ensures { (b : Book) (c : contracts.Contract) (refusal : refusals.Refusal) →
        reserve_refusal b c ≡ Some (Checker refusal) →
        (certificate : List (List columns.Bound)) →
        ¬ IsAcceptable (record (table_of (with_command b (Reserve c))) { certificate = certificate }) }
{}

/// After any commands, of which some were accepted, a book is the fold of those.
pub fn a_book_is_the_fold_of_what_it_accepted()
    ensures { (b : Book) (asked : List commands.Command) (end : Book) →
        LeadsTo b asked end → IsFoldOfAccepted b asked end }
{}

/// What was granted by commands against which nothing stood is covered: at any moment what was reserved then was
/// acceptable, and no share was given away before its hold had passed.
pub fn what_was_granted_is_covered()
    ensures { (b : Book) (accepted : List commands.Command) → b.history ≡ [] → AreUnrefused b accepted →
        IsCovered (timeline_of (record b { history = accepted })) }
{}

/// What a book holds is what its timeline has reserved from its newest moment on: the two folds of its history agree.
pub fn what_is_reserved_is_what_is_held()
    ensures { (b : Book) (moment : ℕ) → newest_of b ≤ moment → table_at (timeline_of b) moment ≡ table_of b }
{}

use ds_domain_base::Contract;
use moment_core::Moment;

/// A command that a book accepted, as it was given.
#[derive(Debug, Drop)]
pub enum Command {
    /// A contract was granted.
    Reserve(Contract),
    /// A contract was released.
    Release {
        /// Its id.
        id: u32,
        /// The moment that was given for its end.
        at: Moment,
    },
    /// A released contract was retired: its share was given back.
    Retire {
        /// Its id.
        id: u32,
        /// The moment that was given for it.
        moment: Moment,
    },
}

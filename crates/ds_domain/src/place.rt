ghost use Rattle.std.specs.Prelude.{◌≡◌};

use ds_domain_base::{DomainFault, Field, Kind, Section};
use ds_domain_text::Flaw;

/// The place of an entry: its section, and how many entries of the section stand before it.
#[derive(Clone, Copy)]
pub(crate) struct Place {
    /// The section.
    pub(crate) section: Section,
    /// The place there, from 0.
    pub(crate) index: usize,
}

impl Place {
    ghost use Rattle.ds_domain.specs.Keys.{fault_here, fault_of_flaw};

    /// A fault at a field of the entry.
    pub(crate) fn fault(self, kind: Kind, field: Field) -> DomainFault
        ensures { result ≡ fault_here self kind field }
    {
        DomainFault::new(kind, self.section, self.index, field)
    }

    /// The fault that the flaw of a key is: `Field` where the key is missing or of another type, `Range` where its
    /// value is out of range.
    pub(crate) fn flaw(self, flaw: Flaw, field: Field) -> DomainFault
        ensures { result ≡ fault_of_flaw self field flaw }
    {
        match flaw {
            Flaw::Misfit => self.fault(Kind::Field, field),
            Flaw::OutOfRange => self.fault(Kind::Range, field),
            Flaw::NoMemory => DomainFault::no_memory(),
        }
    }
}

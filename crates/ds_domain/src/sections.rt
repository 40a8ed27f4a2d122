ghost use Rattle.std.specs.Prelude.{◌≡◌, ◌⊎◌, map, Err, IfErr, Ok, OnOk};
ghost use Rattle.toml.specs.View.{table_view};
ghost use Rattle.ds_domain_base.specs.Faults.{no_memory};
ghost use Rattle.ds_domain.specs.Sections.{few, section_in, top};

use crate::place::Place;
use ds_domain_base::{DomainFault, Field, Kind, Section};
use toml::Table;

/// The top of the text.
pub(crate) fn top() -> Place
    ensures { result ≡ top }
{
    Place {
        section: Section::Top,
        index: 0,
    }
}

/// Refuses a section of more entries than `most`.
#[tactic(auto, unfolding(crate::specs::Sections::few))]
fn few(field: Field, most: usize, tables: &[&Table]) -> Result<(), DomainFault>
    ensures { result ≡ few field most (map (λ table. table_view table.now) tables.now) }
{
    if tables.len() > most {
        Err(top().fault(Kind::Range, field))
    } else {
        Ok(())
    }
}

/// A kind of entry: how one is added to what those before it made.
pub(crate) trait Entries {
    ghost use Rattle.std.specs.Prelude.{Result};
    ghost use Rattle.toml.specs.Data.{Members};
    ghost use Rattle.ds_domain_base.specs.declared.fault.DomainFault.{DomainFault};

    /// What entries are added to.
    type Whole;

    // What one more entry makes, or its fault.
    ghost with_entry: { Self → Self.Whole → Members → Result Self.Whole DomainFault };

    /// Adds an entry behind the others.
    fn add(&self, whole: &mut Self::Whole, table: &Table) -> Result<(), DomainFault>
        ensures added { OnOk result (with_entry self.now whole.old (table_view table.now) ≡ Ok whole.new) }
        ensures refused { IfErr result (λ fault. (fault ≡ no_memory)
            ⊎ (with_entry self.now whole.old (table_view table.now) ≡ Err fault)) };

    /// Adds the entries of a section behind the others, one after the other; `Range` where there are more than `most`,
    /// before any is looked at.
    #[tactic(auto, unfolding(crate::specs::Sections::section_in))]
    final fn add_section(
        &self,
        field: Field,
        most: usize,
        whole: &mut Self::Whole,
        tables: &[&Table],
    ) -> Result<(), DomainFault>
        ensures added { OnOk result (section_in field most (with_entry self.now) whole.old
            (map (λ table. table_view table.now) tables.now) ≡ Ok whole.new) }
        ensures refused { IfErr result (λ fault. (fault ≡ no_memory)
            ⊎ (section_in field most (with_entry self.now) whole.old
            (map (λ table. table_view table.now) tables.now) ≡ Err fault)) }
    {
        few(field, most, tables)?;
        for table in tables {
            self.add(whole, table)?;
        }
        Ok(())
    }
}

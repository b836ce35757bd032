//! Where the fields of a command are looked up. The commands look their fields up by it, in a flat line or in a JSON value.
ghost use Rattle.serde_json.specs.Data.{Data};
ghost use Rattle.serde_json.specs.View.{view};
ghost use Rattle.street_text.specs.LineCommands.{number_in, list_in, field, number_field, number_or, or_fault, Gives};

use crate::fault::LineFault;
use crate::values;
use serde_json::Value;
use std::alloc::Global;
use street_base::Listing;

/// Where the fields of a command are looked up: what a line says, as a JSON object.
pub(crate) trait Lookup {
    ghost shows: { Self → Data };

    /// The number that stands in the field of this name, below 2^64.
    ///
    /// # Errors
    ///
    /// `BadCommand` where there is no such field, or anything else stands in it.
    fn number(&self, name: &str) -> Result<u64, LineFault>
        ensures { Gives result (or_fault LineFault.BadCommand (number_field name.now (shows self.now))) };

    /// The number that stands in the field of this name, below 2^64, and `absent` where there is no such field.
    ///
    /// # Errors
    ///
    /// `BadCommand` where anything else stands in it.
    fn number_or(&self, name: &str, absent: u64) -> Result<u64, LineFault>
        ensures { Gives result (or_fault LineFault.BadCommand (number_or absent name.now (shows self.now))) };

    /// The list of numbers, each below 2^64, that stands in the field of this name.
    ///
    /// # Errors
    ///
    /// `BadCommand` where there is no such field, or anything else stands in it; `Starved` where there was no memory for the list.
    fn numbers(&self, alloc: Global, name: &str) -> Result<Listing<u64>, LineFault>
        ensures { Gives result (or_fault LineFault.BadCommand (field (list_in number_in) name.now (shows self.now))) };
}

/// The fields of a JSON object; any other value has none.
impl Lookup for Value {
    ghost shows = { view };

    /// The number that stands in a field of the JSON object. As the trait says.
    fn number(&self, name: &str) -> Result<u64, LineFault> {
        let found = self.get(name).ok_or(LineFault::BadCommand)?;
        found.as_u64().ok_or(LineFault::BadCommand)
    }

    /// The number that stands in a field of the JSON object, or `absent`. As the trait says.
    fn number_or(&self, name: &str, absent: u64) -> Result<u64, LineFault> {
        values::number_or(self, name, absent)
    }

    /// The list of numbers that stands in a field of the JSON object. As the trait says.
    fn numbers(&self, alloc: Global, name: &str) -> Result<Listing<u64>, LineFault> {
        values::field_of(alloc, self, name)
    }
}

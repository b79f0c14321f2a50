// The parts of an engine: the lists of rows that it keeps.
ghost use Rattle.std.specs.Prelude.{◌≡◌, [], map};
ghost use Rattle.cpe_rows.specs.Prelude.{no_rows, verdict};
ghost use Rattle.verdicts.specs.Verdicts.{known_in};
ghost use Rattle.engine_edits.specs.Parts.{AreLawfulParts, AreOf, rows_in};

use std::alloc::Global;
use verdicts::{Registry, Verdicts};

/// The lists of rows that an engine keeps, and their weight.
#[derive(Drop)]
pub struct EngineParts {
    /// The names of entries, items and facts, with the lists of entries and items.
    pub registry: Registry,
    /// The lists of statements and of results of checks, with the verdict of each statement.
    pub verdicts: Verdicts,
    /// The weight of all rows.
    pub weight: u64,
}

impl EngineParts {
    /// Parts without rows. Allocates: no.
    pub fn new(alloc: Global) -> EngineParts
        ensures rows { rows_in result ≡ no_rows }
        ensures weight { result.weight ≡ 0 }
        ensures are { AreOf result.registry result.verdicts no_rows [] }
    {
        cpe_rows::law::rows_stay_lawful();
        EngineParts {
            registry: Registry::new(alloc),
            verdicts: Verdicts::new(alloc),
            weight: 0,
        }
    }

    /// Sets the verdicts that callers know to the current ones.
    pub(crate) fn forget_changes(&mut self)
        requires { AreLawfulParts self.old }
        ensures kept { AreLawfulParts self.new }
        ensures rows { rows_in self.new ≡ rows_in self.old }
        ensures known { known_in self.new.verdicts ≡ map (verdict (rows_in self.new)) (rows_in self.new).statements }
    {
        self.verdicts.forget_changes();
    }
}

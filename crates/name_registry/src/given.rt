// Sets the deprecations of all entries at once.
ghost use Rattle.std.specs.Prelude.{◌≡◌, length};
ghost use Rattle.name_registry.specs.Moved.{AllDeprecated};

use crate::registry::Registry;
use cpe_dictionary::FillFault;
use cpe_rows::{Deprecation, List};

impl Registry {
    /// Sets the deprecation of each entry to the one at the entry's place, or to none. Names and notes are unchanged.
    /// Takes time in proportion to the entries and their successors.
    ///
    /// # Errors
    /// [`FillFault::Unlawful`] if the entries would be no lawful dictionary; or memory ran out. The registry is then
    /// unchanged.
    pub fn deprecate_all(
        &mut self,
        deprecations: List<Option<Deprecation>>,
    ) -> Result<(), FillFault>
        requires { length deprecations ≡ length self.old.entries }
        ensures { AllDeprecated self.old self.new deprecations result }
    {
        self.dictionary.deprecate_all(&self.table, deprecations)
    }
}

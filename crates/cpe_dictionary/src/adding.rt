// The causes to refuse a new entry.
ghost use Rattle.std.specs.Prelude.{◌≡◌, position};
ghost use Rattle.cpe_rows.specs.Causes.{entry_causes};
ghost use Rattle.cpe_rows.specs.Prelude.{first_some, is_named};
ghost use Rattle.cpe_rows.specs.declared.entry.Entry.{Entry};

use crate::dictionary::Dictionary;
use cpe_rows::{EditFault, Wfn, Which, has_wildcards, is_identifier};

impl Dictionary<'_> {
    /// The first fault of a new entry that has this name, apart from the weight. If an entry already has the name,
    /// `number` is the number of that entry. Allocates: no.
    pub fn entry_fault(&self, name: &Wfn, number: Option<u32>) -> Option<EditFault>
        requires { number ≡ position (is_named name.now) self.now }
        ensures { (entry : Entry) → entry.name ≡ name.now → result ≡ first_some (entry_causes self.now entry) }
    {
        if !is_identifier(name) {
            return Some(EditFault::NotIdentifier);
        }
        if has_wildcards(name) {
            return Some(EditFault::Wildcards);
        }
        if number.is_some() {
            return Some(EditFault::Exists);
        }
        if self.is_full() {
            return Some(EditFault::Full(Which::Entries));
        }
        None
    }
}

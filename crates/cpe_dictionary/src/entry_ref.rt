// References to an entry.
ghost use Rattle.std.specs.Prelude.{◌≡◌, option_map};
ghost use Rattle.cpe_rows.specs.Lent.{entry_lent};
ghost use Rattle.cpe_dictionary.specs.Listed.{entry_with};

use crate::kept::EntryDetails;
use cpe_rows::{EntryRef, Wfn};

/// References to the parts of an entry: to its name, and to the parts in its details, if there are any.
pub(crate) fn lent<'e>(name: &'e Wfn, details: Option<&'e EntryDetails>) -> Option<EntryRef<'e>>
    ensures { option_map entry_lent result ≡ option_map (λ d. entry_with (name.now, d.now)) details.entry }
{
    match details {
        Some(details) => Some(EntryRef {
            name,
            title: &details.title,
            provenance: &details.provenance,
            deprecation: details.deprecation.as_ref(),
        }),
        None => None,
    }
}

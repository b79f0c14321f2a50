// The entries that a search finds, by their places.
ghost use Rattle.std.specs.Prelude.{◌≡◌, ◌||◌, IfOk, filter, is_none, map, not};
ghost use Rattle.cpe_rows.specs.Prelude.{row_of};
ghost use Rattle.names_in_order.specs.Places.{rows_at};
ghost use Rattle.cpe_dictionary.specs.Listed.{is_wanted_entry};

use crate::entries::Entries;
use crate::kept::{EntryDetails, row_of};
use cpe_rows::{List, Memory, Row};
use std::alloc::Global;

// Whether an entry with these details is wanted: every entry is, or only the active ones if `active_only` is true.
fn is_wanted(active_only: bool, details: &EntryDetails) -> bool
    ensures { result ≡ (not active_only || is_none details.now.deprecation) }
{
    !active_only || details.deprecation.is_none()
}

/// Summaries of the entries at these places; if `active_only` is true, only of the active entries.
pub(crate) fn wanted_at(
    alloc: Global,
    entries: &Entries,
    places: &[usize],
    active_only: bool,
) -> Result<List<Row>, Memory>
    ensures { IfOk result (λ rs. rs ≡ map row_of (filter (is_wanted_entry active_only) (rows_at entries.now places.now))) }
{
    let mut rows = List::new(alloc);
    for place in places {
        if let Some((name, details)) = entries.get_index(*place) {
            if is_wanted(active_only, details) {
                rows.push(row_of(alloc, name, details)?)?;
            }
        }
    }
    Ok(rows)
}

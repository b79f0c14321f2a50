// Entries by their numbers, which are their places from 0.
ghost use Rattle.std.specs.Prelude.{◌≡◌, IfOk, filter, map};
ghost use Rattle.cpe_rows.specs.Prelude.{is_active, row_of};
ghost use Rattle.cpe_dictionary.specs.Listed.{entries_at};

use crate::entries::Entries;
use crate::kept::row_of;
use cpe_rows::{List, Memory, Row, Wfn};
use std::alloc::Global;

/// Summaries of the entries of these numbers. A number without an entry is skipped.
///
/// # Errors
/// [`Memory`] if memory runs out.
pub fn rows_at(alloc: Global, entries: &Entries, numbers: &[u32]) -> Result<List<Row>, Memory>
    ensures { IfOk result (λ rs. rs ≡ map row_of (entries_at entries.now numbers.now)) }
{
    let mut rows = List::new(alloc);
    for number in numbers {
        if let Some((name, details)) = entries.get_index(*number as usize) {
            rows.push(row_of(alloc, name, details)?)?;
        }
    }
    Ok(rows)
}

/// The names of the active entries among the entries of these numbers. A number without an entry is skipped.
///
/// # Errors
/// [`Memory`] if memory runs out.
pub fn active_names_at(
    alloc: Global,
    entries: &Entries,
    numbers: &[u32],
) -> Result<List<Wfn>, Memory>
    ensures { IfOk result (λ ns. ns ≡ map (λ e. e.name) (filter is_active (entries_at entries.now numbers.now))) }
{
    let mut names = List::new(alloc);
    for number in numbers {
        if let Some((name, details)) = entries.get_index(*number as usize) {
            if details.deprecation.is_none() {
                names.push(name.copy(alloc)?)?;
            }
        }
    }
    Ok(names)
}

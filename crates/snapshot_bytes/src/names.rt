// The names of the entries at some places.
ghost use Rattle.std.specs.Prelude.{◌≡◌, List, IfOk, IfErr};
ghost use Rattle.cpe_rows.specs.cpe_name.Eleven.{Values};
ghost use Rattle.snapshot_bytes.specs.States.{AreNamed};

use crate::fault::LoadFault;
use crate::rows::PlacedEntry;
use cpe_rows::{List, Wfn};
use std::alloc::Global;

/// Copies of the names of the entries at these places, in the order of the places.
///
/// # Errors
/// `NotSnapshot` if a place has no entry; `Memory` if memory runs out.
pub fn names_at(
    alloc: Global,
    entries: &[PlacedEntry],
    places: &[u32],
) -> Result<List<Wfn>, LoadFault>
    ensures named { IfOk result (λ ns. AreNamed entries.now places.now ns) }
    ensures refused { IfErr result (λ f. f ≡ LoadFault.NotSnapshot → (ns : List Values) → AreNamed entries.now places.now ns → ⊥) }
{
    let mut names = List::with_room(alloc, places.len())?;
    for place in places {
        let Some(entry) = entries.get(*place as usize) else {
            drop(names);
            return Err(LoadFault::NotSnapshot);
        };
        names.push(entry.name.copy(alloc)?)?;
    }
    Ok(names)
}

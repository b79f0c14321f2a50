// Reserving places for a number: in a list, and in the vector that keeps the place of each number.
ghost use Rattle.std.specs.Prelude.{◌≡◌, ◌<◌, ◌^◌, length, vec_capacity, OnOk};
ghost use Rattle.names_in_order.specs.Room.{KeepsPlaces};

use name_index::{Memory, NameId};

// Extends the vector of kept places, so that it has a place for each number up to this number.
fn reach_number(places: &mut Vec<u32>, id: NameId) -> Result<(), Memory>
    ensures kept { KeepsPlaces places.old.items places.new.items }
    ensures known { OnOk result (id.0 < length places.new.items) }
{
    while places.len() <= id.0 as usize {
        places.push(0)?;
    }
    Ok(())
}

/// Reserves a slot for a number, and extends the vector of kept places, so that it has a place for this number. The
/// slots and the places kept so far are unchanged.
///
/// # Errors
/// Memory ran out, or there are 2^32 slots already.
pub(crate) fn make_place<T>(
    slots: &mut Vec<T>,
    places: &mut Vec<u32>,
    id: NameId,
) -> Result<(), Memory>
    ensures slots { slots.new.items ≡ slots.old.items }
    ensures kept { KeepsPlaces places.old.items places.new.items }
    ensures known { OnOk result (id.0 < length places.new.items) }
    ensures room { OnOk result (length slots.new.items < vec_capacity slots.new) }
    ensures few { OnOk result (length slots.new.items < 2 ^ 32) }
{
    if slots.len() > u32::MAX as usize {
        return Err(Memory);
    }
    slots.reserve(1)?;
    reach_number(places, id)
}

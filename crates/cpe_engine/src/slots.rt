// Items by their slots, and the first item that a name covers or may cover.
ghost use Rattle.std.specs.Prelude.{◌≡◌, find, length, slice_get, filter_map, option_copied};
ghost use Rattle.certificate_search.specs.certificate_check.Relates.{related};

use certificate_search::Relates;
use cpe_rows::Wfn;
use engine_edits::ItemSlots;

// The item at a place in the list of items. Some slots may be empty.
fn nth_item<'t>(slots: &ItemSlots<'t>, k: usize) -> Option<&'t Wfn>
    ensures { option_copied result ≡ slice_get (filter_map (λ slot. slot) slots.now) k }
{
    let mut left = k;
    for slot in 0..slots.len() {
        if let Some(item) = slots.at(slot) {
            if left == 0 {
                return Some(item);
            }
            left -= 1;
        }
    }
    None
}

/// The item at a place in the list of items, whose length is `count`. Some slots may be empty. If none is, the item is
/// found in one step.
pub(crate) fn item_of<'t>(slots: &ItemSlots<'t>, count: usize, k: usize) -> Option<&'t Wfn>
    requires { count ≡ length (filter_map (λ slot. slot) slots.now) }
    ensures { option_copied result ≡ slice_get (filter_map (λ slot. slot) slots.now) k }
{
    if slots.len() == count {
        return slots.at(k);
    }
    nth_item(slots, k)
}

/// The first item that a name covers or may cover, as `relates` says. It compares the items one by one.
pub(crate) fn first_related<'t>(
    slots: &ItemSlots<'t>,
    relates: Relates,
    name: &Wfn,
) -> Option<&'t Wfn>
    ensures { option_copied result ≡ find (related relates name.now) (filter_map (λ slot. slot) slots.now) }
{
    for slot in 0..slots.len() {
        if let Some(item) = slots.at(slot) {
            if relates.holds(name, item) {
                return Some(item);
            }
        }
    }
    None
}

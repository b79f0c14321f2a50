// The slots that are marks, in rising order: the number of marks before a slot, and the slot of a place.
ghost use Rattle.std.specs.Prelude.{◌≡◌, ◌≤◌, ◌<◌, ◌+◌, ◌^◌, ℕ, drop, get_or, length, nat_lt, take, vec_capacity};
ghost use Rattle.ticket_list.specs.Rising.{IsRising, prefix, put_in};
ghost use Rattle.ticket_list.specs.Slots.{skipped};

// The number of marks before a slot.
pub(crate) fn count_before(marks: &[usize], slot: usize) -> usize
    requires { IsRising marks.now }
    ensures count { result ≡ prefix (λ m. nat_lt m slot) marks.now }
    ensures bound { result ≤ length marks.now }
{
    marks.partition_point(|mark| *mark < slot)
}

// Inserts a slot into the marks.
pub(crate) fn enter(marks: &mut Vec<usize>, slot: usize)
    requires rising { IsRising marks.old.items }
    requires room { length marks.old.items < vec_capacity marks.old }
    ensures { marks.new.items ≡ put_in slot marks.old.items }
{
    let place = count_before(marks, slot);
    match marks.insert(place, slot) {
        Ok(()) => (),
        Err(_) => unreachable!(),
    }
}

fn mark_at(marks: &[usize], place: usize) -> usize
    requires { place < length marks.now }
    ensures { result ≡ get_or marks.now place result }
{
    marks[place]
}

fn marks_behind(marks: &[usize], place: usize) -> &[usize]
    requires { place < length marks.now }
    ensures { result.now ≡ drop (place + 1) marks.now }
{
    &marks[place + 1..]
}

fn marks_before(marks: &[usize], place: usize) -> &[usize]
    requires { place < length marks.now }
    ensures { result.now ≡ take place marks.now }
{
    &marks[..place]
}

// The slot of the element at a place: the place plus the number of marks before this slot. Found by a binary search.
pub(crate) fn skip(place: usize, marks: &[usize]) -> usize
    requires rising { IsRising marks.now }
    requires few { place + length marks.now < 2 ^ 64 }
    ensures { result ≡ skipped place marks.now }
{
    let mut slot = place;
    let mut rest = marks;
    while !rest.is_empty() {
        let half = rest.len() / 2;
        if mark_at(rest, half) <= slot + half {
            slot += half + 1;
            rest = marks_behind(rest, half);
        } else {
            rest = marks_before(rest, half);
        }
    }
    slot
}

// Rising lists of tickets.
ghost use Rattle.std.specs.Prelude.{◌≡◌, ◌≤◌, ◌<◌, length, nat_lt, vec_capacity, true, ◌||◌};
ghost use Rattle.ticket_list.specs.Tickets.{ends_with, is_at, with_last, without};
ghost use Rattle.ticket_list.specs.Rising.{IsRising, prefix, put_in};

// How many tickets of a rising list are below this one.
fn count_below(list: &[u64], ticket: u64) -> usize
    requires { IsRising list.now }
    ensures count { result ≡ prefix (λ x. nat_lt x ticket) list.now }
    ensures bound { result ≤ length list.now }
{
    list.partition_point(|other| *other < ticket)
}

/// Adds a ticket to a rising list, at its place. Allocates: no.
pub fn add_ticket(list: &mut Vec<u64>, ticket: u64)
    requires rising { IsRising list.old.items }
    requires room { length list.old.items < vec_capacity list.old }
    ensures items { list.new.items ≡ put_in ticket list.old.items }
    ensures capacity { vec_capacity list.new ≡ vec_capacity list.old }
{
    let place = count_below(list, ticket);
    match list.insert(place, ticket) {
        Ok(()) => (),
        Err(_) => unreachable!(),
    }
}

/// Removes a ticket from a rising list, if it is there. Allocates: no.
pub fn remove_ticket(list: &mut Vec<u64>, ticket: u64)
    requires rising { IsRising list.old.items }
    ensures items { list.new.items ≡ without ticket list.old.items }
    ensures capacity { vec_capacity list.new ≡ vec_capacity list.old }
{
    let place = count_below(list, ticket);
    if is_at(list, place, ticket) {
        list.remove(place);
    }
}

// Whether a ticket is at a place.
fn is_at(list: &[u64], place: usize, ticket: u64) -> bool
    ensures { result ≡ is_at list.now place ticket }
{
    match list.get(place) {
        Some(other) => *other == ticket,
        None => false,
    }
}

fn ends_with(list: &[u64], ticket: u64) -> bool
    ensures { result ≡ ends_with ticket list.now }
{
    match list {
        [] => false,
        [.., last] => *last == ticket,
    }
}

/// Adds a ticket at the end of a list, unless the list ends with it. Allocates: no.
pub fn append_ticket(list: &mut Vec<u64>, ticket: u64)
    requires { (nat_lt (length list.old.items) (vec_capacity list.old) || ends_with ticket list.old.items) ≡ true }
    ensures { list.new.items ≡ with_last ticket list.old.items }
{
    if ends_with(list, ticket) {
        return;
    }
    list.push_reserved(ticket);
}

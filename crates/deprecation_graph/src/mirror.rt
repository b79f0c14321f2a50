// Edges stored in both directions: the successors and the predecessors of each node.
ghost use Rattle.std.specs.Prelude.{◌≡◌, ◌+◌, ◌++◌, ◌∷◌, [], ◌<◌, ◌≤◌, length, slice_set, Contains, All};
ghost use Rattle.deprecation_graph.specs.Indexed.{list_of_node, without_number};
ghost use Rattle.deprecation_graph.specs.Mirror.{IsMirror};

use crate::lists::Lists;
use list_pool::CellName;

// The mate of a cell in `next`: the cell in `before` that is noted for the same edge. If none is noted, any cell is
// returned. Mates are hints, and no proof depends on them.
fn mate(mates: &[u32], cell: Option<CellName>) -> CellName {
    match cell {
        Some(cell) => match mates.get(cell.0 as usize) {
            Some(mate) => CellName(*mate),
            None => cell,
        },
        None => CellName(0),
    }
}

// Notes the mate of a cell.
fn set_mate(mates: &mut [u32], cell: Option<CellName>, mate: Option<CellName>) {
    let (Some(cell), Some(mate)) = (cell, mate) else {
        return;
    };
    if (cell.0 as usize) < mates.len() {
        mates[cell.0 as usize] = mate.0;
    }
}

// Notes the new mate of the edge that was moved into `cell`, if an edge was moved. The edge's node has few edges, so
// the edge is found soon.
fn move_mate(next: &Lists, mates: &mut [u32], moved: Option<u32>, to: u32, cell: CellName) {
    if let Some(from) = moved {
        set_mate(mates, next.cell_of(from as usize, to), Some(cell));
    }
}

// Adds an edge.
fn link(next: &mut Lists, before: &mut Lists, mates: &mut [u32], from: u32, to: u32)
    requires from { from < length next.old.lists }
    requires to { to < length before.old.lists }
    requires next_spare { 1 ≤ next.old.spare }
    requires before_spare { 1 ≤ before.old.spare }
    requires mirror { IsMirror next.old.lists before.old.lists }
    ensures next { next.new.lists ≡ slice_set next.old.lists from (list_of_node next.old.lists from ++ to ∷ []) }
    ensures before { before.new.lists ≡ slice_set before.old.lists to (list_of_node before.old.lists to ++ from ∷ []) }
    ensures mirror { IsMirror next.new.lists before.new.lists }
    ensures next_spare { next.new.spare + 1 ≡ next.old.spare }
    ensures before_spare { before.new.spare + 1 ≡ before.old.spare }
    ensures next_room { next.new.room ≡ next.old.room }
    ensures before_room { before.new.room ≡ before.old.room }
{
    next.push(from as usize, to);
    before.push(to as usize, from);
    set_mate(
        mates,
        next.last_cell(from as usize),
        before.last_cell(to as usize),
    );
}

// Removes an edge. If it is the first edge of the node `from`, its mate is known, and the removal costs constant time.
fn unlink(next: &mut Lists, before: &mut Lists, mates: &mut [u32], from: u32, to: u32)
    requires from { from < length next.old.lists }
    requires to { to < length before.old.lists }
    requires there { Contains (list_of_node next.old.lists from) to }
    requires mirror { IsMirror next.old.lists before.old.lists }
    ensures next { next.new.lists ≡ slice_set next.old.lists from (without_number to (list_of_node next.old.lists from)) }
    ensures before { length before.new.lists ≡ length before.old.lists }
    ensures mirror { IsMirror next.new.lists before.new.lists }
    ensures next_spare { next.new.spare ≡ next.old.spare + 1 }
    ensures before_spare { before.new.spare ≡ before.old.spare + 1 }
    ensures next_room { next.new.room ≡ next.old.room }
    ensures before_room { before.new.room ≡ before.old.room }
{
    let cell = mate(mates, next.first_cell(from as usize));
    next.remove(from as usize, to);
    let moved = before.remove_at(to as usize, from, cell);
    move_mate(next, mates, moved, to, cell);
}

/// Removes all edges that start at a number.
pub(crate) fn unlink_all(next: &mut Lists, before: &mut Lists, mates: &mut [u32], from: u32)
    requires from { from < length next.old.lists }
    requires closed { All (λ to. to < length before.old.lists) (list_of_node next.old.lists from) }
    requires mirror { IsMirror next.old.lists before.old.lists }
    ensures next { next.new.lists ≡ slice_set next.old.lists from [] }
    ensures before { length before.new.lists ≡ length before.old.lists }
    ensures mirror { IsMirror next.new.lists before.new.lists }
    ensures next_spare { next.new.spare ≡ next.old.spare + length (list_of_node next.old.lists from) }
    ensures before_spare { before.new.spare ≡ before.old.spare + length (list_of_node next.old.lists from) }
    ensures next_room { next.new.room ≡ next.old.room }
    ensures before_room { before.new.room ≡ before.old.room }
{
    while let Some(to) = next.first(from as usize) {
        unlink(next, before, mates, from, to);
    }
}

/// Adds an edge from the number `from` to each of these numbers.
pub(crate) fn link_all(
    next: &mut Lists,
    before: &mut Lists,
    mates: &mut [u32],
    from: u32,
    all: &[u32],
)
    requires from { from < length next.old.lists }
    requires closed { All (λ to. to < length before.old.lists) all.now }
    requires mirror { IsMirror next.old.lists before.old.lists }
    requires next_spare { length all.now ≤ next.old.spare }
    requires before_spare { length all.now ≤ before.old.spare }
    ensures next { next.new.lists ≡ slice_set next.old.lists from (list_of_node next.old.lists from ++ all.now) }
    ensures before { length before.new.lists ≡ length before.old.lists }
    ensures mirror { IsMirror next.new.lists before.new.lists }
    ensures next_spare { next.new.spare + length all.now ≡ next.old.spare }
    ensures before_spare { before.new.spare + length all.now ≡ before.old.spare }
    ensures next_room { next.new.room ≡ next.old.room }
    ensures before_room { before.new.room ≡ before.old.room }
{
    for to in all {
        link(next, before, mates, from, *to);
    }
}

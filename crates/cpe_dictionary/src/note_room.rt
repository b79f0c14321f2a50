// Memory for a further note of an entry.
ghost use Rattle.std.specs.Prelude.{◌≡◌, ◌≤◌, ◌+◌, ◌++◌, ◌∷◌, [], IfOk, length, vec_capacity};

use cpe_rows::{Memory, Note};
use std::alloc::Global;
use std::marker::Model;

/// Memory for all notes of an entry and a further one. [`GrowingEntries::note_room`] takes it.
/// [`GrowingEntries::rewrite_at`] uses it if the memory of the entry's notes is full. Contracts see the number of notes
/// for which there is room.
///
/// [`GrowingEntries::note_room`]: crate::GrowingEntries::note_room
/// [`GrowingEntries::rewrite_at`]: crate::GrowingEntries::rewrite_at
#[derive(Debug, Drop)]
pub struct NoteRoom {
    // Always empty: only its memory is used.
    notes: Vec<Note>,
}

impl Model for NoteRoom {
    ghost use Rattle.std.specs.Prelude.{◌≡◌, ℕ, [], vec_capacity};

    ghost Value = { ℕ };

    ghost view = { λ r. vec_capacity r.notes };

    ghost invariant = { λ r. r.notes.items ≡ [] };
}

// The number of notes for which memory is taken. Below four notes this is one note more, as most entries have few
// notes. From four notes on it is twice as many, so that the notes are seldom moved.
fn count_places(notes: &[Note]) -> usize
    ensures { length notes.now + 1 ≤ result }
{
    let count = notes.len();
    if count < 4 { count + 1 } else { count * 2 }
}

// Adds a note at the end. If the memory of the notes is full, all notes are moved into the memory of the room.
fn append_note(mut notes: Vec<Note>, note: Note, mut room: Vec<Note>) -> Vec<Note>
    requires empty { room.items ≡ [] }
    requires room { length notes.items + 1 ≤ vec_capacity room }
    ensures { result.items ≡ notes.items ++ note ∷ [] }
{
    if notes.len() < notes.capacity() {
        notes.push_reserved(note);
        return notes;
    }
    match room.append(&mut notes) {
        Ok(()) => {
            room.push_reserved(note);
            room
        }
        Err(_) => unreachable!(),
    }
}

impl NoteRoom {
    /// Memory for no note. Allocates: no.
    pub(crate) fn none(alloc: Global) -> NoteRoom {
        NoteRoom {
            notes: Vec::new(alloc),
        }
    }

    /// Memory for these notes and a further one.
    ///
    /// # Errors
    /// [`Memory`] if memory runs out.
    pub(crate) fn new(alloc: Global, notes: &[Note]) -> Result<NoteRoom, Memory>
        ensures { IfOk result (λ r. length notes.now + 1 ≤ r) }
    {
        match Vec::with_capacity(alloc, count_places(notes)) {
            Ok(notes) => Ok(NoteRoom { notes }),
            Err(_) => Err(Memory),
        }
    }

    /// The allocator.
    pub(crate) fn memory(&self) -> Global {
        *self.notes.allocator()
    }

    /// The notes with a further note at the end. Allocates: no.
    pub(crate) fn push(self, notes: Vec<Note>, note: Note) -> Vec<Note>
        requires { length notes.items + 1 ≤ self }
        ensures { result.items ≡ notes.items ++ note ∷ [] }
    {
        let NoteRoom { notes: room } = self;
        append_note(notes, note, room)
    }
}

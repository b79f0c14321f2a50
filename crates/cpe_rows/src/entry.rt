// Entries of a dictionary (NIST IR 7697), and their copies.
ghost use Rattle.std.specs.Prelude.{◌≡◌, IfOk};

use crate::date::Date;
use crate::list::List;
use crate::text::Text;
use cpe_name::Wfn;
use cpe_values::Memory;
use std::alloc::Global;

/// Why an entry is deprecated (NIST IR 7697).
#[derive(Debug, Clone, Copy, PartialEq, Eq)]
pub enum Kind {
    /// Its name was wrong. The successors have the right name.
    NameCorrection,
    /// Its name should not have been in the dictionary. It has no successors.
    NameRemoval,
    /// More is known now. Its name was used for several products, and the successors name each of them.
    AdditionalInformation,
}

/// The subject of a note.
#[derive(Debug, Clone, Copy, PartialEq, Eq)]
pub enum NoteKind {
    /// The entry as it was first submitted.
    OriginalRecord,
    /// A change of the authority.
    AuthorityChange,
    /// The deprecation of the entry.
    Deprecation,
    /// The replacement or removal of the deprecation.
    DeprecationModification,
}

/// A note about a change of an entry.
#[derive(Debug, Drop)]
pub struct Note {
    /// The subject of the note.
    pub kind: NoteKind,
    /// The day of the change.
    pub date: Date,
    /// A comment on the change, perhaps empty.
    pub comment: Text,
}

/// The origin of an entry (NIST IR 7697). Each text may be empty.
#[derive(Debug, Drop)]
pub struct Provenance {
    /// Who submitted the entry.
    pub submitter: Text,
    /// Who added the entry to the dictionary.
    pub authority: Text,
    /// The notes on changes of the entry, in the order in which they were added.
    pub notes: List<Note>,
}

/// The mark of a deprecated entry. It has one kind for all successors. A removed entry has no successors. Otherwise
/// there are 1 to 16 successors, all different.
#[derive(Debug, Drop)]
pub struct Deprecation {
    /// Why the entry is deprecated.
    pub kind: Kind,
    /// The names of the entries that replace the deprecated one.
    pub successors: List<Wfn>,
}

/// An entry of the dictionary. It is active if it has no deprecation.
#[derive(Debug, Drop)]
pub struct Entry {
    /// The name of the entry. Part, vendor and product are texts, and no value has a special.
    pub name: Wfn,
    /// A title for readers, perhaps empty.
    pub title: Text,
    /// The origin of the entry.
    pub provenance: Provenance,
    /// The deprecation, if the entry is deprecated.
    pub deprecation: Option<Deprecation>,
}

impl Note {
    /// A copy of the note.
    ///
    /// # Errors
    /// Only if memory runs out.
    pub fn copy(&self, alloc: Global) -> Result<Note, Memory>
        ensures { IfOk result (λ n. n ≡ self.now) }
    {
        Ok(Note {
            kind: self.kind,
            date: self.date,
            comment: self.comment.copy(alloc)?,
        })
    }
}

impl Deprecation {
    /// A copy of the deprecation.
    ///
    /// # Errors
    /// Only if memory runs out.
    pub fn copy(&self, alloc: Global) -> Result<Deprecation, Memory>
        ensures { IfOk result (λ d. d ≡ self.now) }
    {
        let mut successors = List::with_room(alloc, self.successors.len())?;
        for name in self.successors.as_slice() {
            successors.push(name.copy(alloc)?)?;
        }
        Ok(Deprecation {
            kind: self.kind,
            successors,
        })
    }
}

impl Provenance {
    /// A copy of the provenance.
    ///
    /// # Errors
    /// Only if memory runs out.
    pub fn copy(&self, alloc: Global) -> Result<Provenance, Memory>
        ensures { IfOk result (λ p. p ≡ self.now) }
    {
        let notes = copy_of_notes(alloc, self.notes.as_slice())?;
        Ok(Provenance {
            submitter: self.submitter.copy(alloc)?,
            authority: self.authority.copy(alloc)?,
            notes,
        })
    }
}

fn copy_of_notes(alloc: Global, notes: &[Note]) -> Result<List<Note>, Memory>
    ensures { IfOk result (λ ns. ns ≡ notes.now) }
{
    let mut copies = List::with_room(alloc, notes.len())?;
    for note in notes {
        copies.push(note.copy(alloc)?)?;
    }
    Ok(copies)
}

/// A copy of an entry's deprecation, if the entry has one.
///
/// # Errors
/// Only if memory runs out.
pub fn copy_of_deprecation(
    alloc: Global,
    deprecation: &Option<Deprecation>,
) -> Result<Option<Deprecation>, Memory>
    ensures { IfOk result (λ d. d ≡ deprecation.now) }
{
    match deprecation {
        Some(deprecation) => Ok(Some(deprecation.copy(alloc)?)),
        None => Ok(None),
    }
}

impl Entry {
    /// A copy of the entry.
    ///
    /// # Errors
    /// Only if memory runs out.
    pub fn copy(&self, alloc: Global) -> Result<Entry, Memory>
        ensures { IfOk result (λ e. e ≡ self.now) }
    {
        let deprecation = copy_of_deprecation(alloc, &self.deprecation)?;
        Ok(Entry {
            name: self.name.copy(alloc)?,
            title: self.title.copy(alloc)?,
            provenance: self.provenance.copy(alloc)?,
            deprecation,
        })
    }
}

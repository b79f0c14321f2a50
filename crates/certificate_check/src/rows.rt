// Access to rows, one row at a time.
ghost use Rattle.std.specs.Prelude.{◌≡◌, find, IfOk, option_copied, option_map, slice_get};
ghost use Rattle.std.specs.List.{list_any};
ghost use Rattle.cpe_rows.specs.Prelude.{check_truth, fact_truth, has_id, is_same, IsLawful, Rows, same_key};
ghost use Rattle.cpe_rows.specs.Lent.{entry_lent};
ghost use Rattle.certificate_check.specs.Leading.{deprecation_of};

use crate::listed::truth_in;
use cpe_rows::{
    CheckKey, Deprecation, EntryRef, MOST_CHECKS, MOST_ENTRIES, MOST_ITEMS, MOST_STATEMENTS,
    Memory, Mode, Statement, Text, Truth, Wfn, is_same,
};
use std::alloc::Global;

// Whether two keys are equal.
fn is_key(key: &CheckKey, other: &CheckKey) -> bool
    ensures { result ≡ same_key key.now other.now }
{
    key.system == other.system && key.href == other.href && key.id == other.id
}

/// The rows of a dictionary and of an inventory, each read by its place from 0. Contracts see them as lawful rows.
///
/// The look-ups search row after row, which is enough for plain lists. Rows with an index replace the look-ups by their
/// own.
pub trait PlainRows {
    ghost rows: { Self → Rows };

    /// Law: the rows are lawful.
    fn lawful(&self)
        ensures { IsLawful (rows self.now) };

    /// The entry at a place. None exactly if the place is the number of entries or more.
    fn entry(&self, k: usize) -> Option<EntryRef<'_>>
        ensures { option_map entry_lent result ≡ slice_get (rows self.now).entries k };

    /// The item at a place. None exactly if the place is the number of items or more.
    fn item(&self, k: usize) -> Option<&Wfn>
        ensures { option_copied result ≡ slice_get (rows self.now).items k };

    /// The statement at a place. None exactly if the place is the number of statements or more.
    fn statement(&self, k: usize) -> Option<&Statement>
        ensures { option_copied result ≡ slice_get (rows self.now).statements k };

    /// The check at a place among the checks with a kept result, and this result. None exactly if the place is the
    /// number of kept results or more.
    fn check(&self, k: usize) -> Option<(&CheckKey, Truth)>
        ensures { option_map (λ row. (row.0.now, row.1)) result ≡ slice_get (rows self.now).checks k };

    /// The statement of this id, if there is one.
    fn statement_of(&self, id: &Text) -> Option<&Statement>
        ensures { option_copied result ≡ find (has_id id.now) (rows self.now).statements }
    {
        self.lawful();
        for k in 0..MOST_STATEMENTS {
            match self.statement(k) {
                Some(statement) => {
                    if statement.id == *id {
                        return Some(statement);
                    }
                }
                None => return None,
            }
        }
        None
    }

    /// The kept result of a check, or UNKNOWN if no result is kept.
    fn result_of(&self, key: &CheckKey) -> Truth
        ensures { result ≡ check_truth (rows self.now) key.now }
    {
        self.lawful();
        for k in 0..MOST_CHECKS {
            match self.check(k) {
                Some((kept, truth)) => {
                    if is_key(key, kept) {
                        return truth;
                    }
                }
                None => return Truth::Unknown,
            }
        }
        Truth::Unknown
    }

    /// Whether an item has this name.
    fn has_item(&self, name: &Wfn) -> bool
        ensures { result ≡ list_any (is_same name.now) (rows self.now).items }
    {
        self.lawful();
        for k in 0..MOST_ITEMS {
            match self.item(k) {
                Some(item) => {
                    if is_same(name, item) {
                        return true;
                    }
                }
                None => return false,
            }
        }
        false
    }

    /// The deprecation of the entry of this name. None if the name has no entry, or if the entry isn't deprecated.
    fn deprecation_of(&self, name: &Wfn) -> Option<&Deprecation>
        ensures { option_copied result ≡ deprecation_of (rows self.now).entries name.now }
    {
        self.lawful();
        for k in 0..MOST_ENTRIES {
            match self.entry(k) {
                Some(entry) => {
                    if is_same(name, entry.name) {
                        return entry.deprecation;
                    }
                }
                None => return None,
            }
        }
        None
    }

    /// The truth of a fact reference in a mode.
    ///
    /// # Errors
    /// Only if memory runs out.
    fn find_fact(&self, alloc: Global, mode: Mode, name: &Wfn) -> Result<Truth, Memory>
        ensures { IfOk result (λ truth. truth ≡ fact_truth (rows self.now) mode name.now) }
    {
        self.lawful();
        let mut items = Vec::new(alloc);
        let mut place = 0;
        while let Some(item) = self.item(place) {
            items.push(item)?;
            place += 1;
        }
        let mut entries = Vec::new(alloc);
        let mut k = 0;
        while let Some(entry) = self.entry(k) {
            entries.push(entry)?;
            k += 1;
        }
        truth_in(alloc, mode, &entries, &items, name)
    }
}

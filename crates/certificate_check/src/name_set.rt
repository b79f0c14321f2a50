// A set of different names that are stored elsewhere, in the order of their addition.
ghost use Rattle.std.specs.Prelude.{◌≡◌, ◌<◌, ◌^◌, [], fold, IfOk, IsSome, OnOk, not, slice_get, option_copied};
ghost use Rattle.std.specs.List.{list_any};
ghost use Rattle.cpe_rows.specs.Prelude.{is_same};
ghost use Rattle.certificate_check.specs.Relates.{related};
ghost use Rattle.certificate_check.specs.Seen.{with_seen_name};

use crate::relates::Relates;
use cpe_rows::{Memory, Wfn};
use indexmap::IndexSet;
use std::alloc::Global;
use std::marker::Model;

/// Different names, stored elsewhere, in the order of their addition. Each is found by its place. In contracts the set
/// is the list of these names.
#[derive(Drop)]
pub struct NameSet<'a> {
    names: IndexSet<&'a Wfn>,
}

impl<'a> Model for NameSet<'a> {
    ghost use Rattle.std.specs.Prelude.{List, map};
    ghost use Rattle.cpe_rows.specs.cpe_name.Eleven.{Values};

    ghost Value = { List Values };

    ghost view = { λ set. map (λ name. name.now) set.names.keys };
}

impl<'a> NameSet<'a> {
    /// An empty set. Allocates: no.
    pub fn new(alloc: Global) -> NameSet<'a>
        ensures { result ≡ [] }
    {
        NameSet {
            names: IndexSet::new(alloc),
        }
    }

    /// Appends the name, unless the set has it. Returns whether the name is new.
    ///
    /// # Errors
    /// Only that memory ran out.
    pub fn insert(&mut self, name: &'a Wfn) -> Result<bool, Memory>
        ensures new { IfOk result (λ is_new. is_new ≡ not (list_any (is_same name.now) self.old)) }
        ensures names { OnOk result (self.new ≡ with_seen_name self.old name.now) }
    {
        match self.names.insert(name) {
            Ok(is_new) => Ok(is_new),
            Err(_) => Err(Memory),
        }
    }

    /// Appends those of the names, in order, that the set doesn't have.
    pub(crate) fn insert_all(&mut self, names: &'a [Wfn]) -> Result<(), Memory>
        ensures { OnOk result (self.new ≡ fold with_seen_name self.old names.now) }
    {
        for name in names {
            self.insert(name)?;
        }
        Ok(())
    }

    /// The name at a place, if there is one.
    pub(crate) fn get(&self, place: usize) -> Option<&'a Wfn>
        ensures name { option_copied result ≡ slice_get self.now place }
        ensures few { IsSome result → place < 2 ^ 63 }
    {
        if place >= self.names.len() {
            return None;
        }
        match self.names.get_index(place) {
            Some(name) => Some(*name),
            None => None,
        }
    }

    // Whether the name has the relation to a name of the set.
    fn has_related(&self, relates: Relates, name: &Wfn) -> bool
        ensures { result ≡ list_any (related relates name.now) self.now }
    {
        some_related(self.names.as_slice(), relates, name)
    }

    /// Whether a name of this set has the relation to a name of `others`.
    pub(crate) fn has_met(&self, relates: Relates, others: &NameSet<'_>) -> bool
        ensures { result ≡ list_any (λ n. list_any (related relates n) others.now) self.now }
    {
        some_met(self.names.as_slice(), relates, others)
    }
}

fn some_related(names: &[&Wfn], relates: Relates, name: &Wfn) -> bool
    ensures { result ≡ list_any (λ n. related relates name.now n.now) names.now }
{
    names.iter().any(|other| relates.holds(name, *other))
}

fn some_met(names: &[&Wfn], relates: Relates, others: &NameSet<'_>) -> bool
    ensures { result ≡ list_any (λ n. list_any (related relates n.now) others.now) names.now }
{
    names.iter().any(|name| others.has_related(relates, *name))
}

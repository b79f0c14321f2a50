// The sources of an entry: the entries whose chain contains it.
ghost use Rattle.std.specs.Prelude.{◌≡◌, ◌↔◌, IfOk, IsTrue, Some, position, Contains};
ghost use Rattle.std.specs.List.Sorted.{IsStrictlyIncreasing};
ghost use Rattle.cpe_rows.specs.Prelude.{is_named, leads_to};
ghost use Rattle.cpe_dictionary.specs.Sources.{AreSourcesOf};

use crate::by_number::{chains_by_number, entries_are_numbered};
use crate::dictionary::Dictionary;
use cpe_rows::{Memory, Wfn};
use std::alloc::Global;
use std::marker::Model;

/// The sources of an entry: the entry itself and all entries whose chain contains it. Contracts see the entries of the
/// dictionary and the name of the entry.
#[derive(Drop)]
pub struct Sources<'d> {
    dictionary: Dictionary<'d>,
    entry: &'d Wfn,
    numbers: Vec<u32>,
}

impl<'d> Model for Sources<'d> {
    ghost use Rattle.std.specs.Prelude.{List};
    ghost use Rattle.cpe_rows.specs.cpe_name.Eleven.{Values};
    ghost use Rattle.cpe_rows.specs.declared.entry.Entry.{Entry};
    ghost use Rattle.cpe_dictionary.specs.Sources.{AreSourcesOf};

    ghost Value = { List Entry × Values };

    ghost view = { λ s. (s.dictionary, s.entry.now) };

    ghost invariant = { λ s. AreSourcesOf s.dictionary s.entry.now s.numbers.items };
}

// Whether a number is in an increasing list of numbers.
fn has_number(numbers: &[u32], number: u32) -> bool
    requires { IsStrictlyIncreasing numbers.now }
    ensures { IsTrue result ↔ Contains numbers.now number }
{
    match numbers.binary_search(&number) {
        Ok(_) => true,
        Err(_) => false,
    }
}

impl<'d> Dictionary<'d> {
    /// The sources of the entry that has this name and this number. The function searches the graph backwards. Its cost
    /// is proportional to the sources and the edges between them.
    ///
    /// # Errors
    /// [`Memory`] if memory runs out.
    pub fn sources(self, alloc: Global, entry: &'d Wfn, number: u32) -> Result<Sources<'d>, Memory>
        requires { position (is_named entry.now) self ≡ Some number }
        ensures { IfOk result (λ s. s ≡ (self.entry, entry.now)) }
    {
        chains_by_number();
        entries_are_numbered();
        deprecation_graph::law::chains_are_paths();
        match self.graph.sources(alloc, number) {
            Ok(numbers) => Ok(Sources {
                dictionary: self,
                entry,
                numbers,
            }),
            Err(_) => Err(Memory),
        }
    }
}

impl Sources<'_> {
    /// The numbers of the sources, in increasing order.
    pub fn numbers(&self) -> &[u32]
        ensures { AreSourcesOf self.now.0 self.now.1 result.now }
    {
        &self.numbers
    }

    /// Whether this name leads to the entry. A name without an entry doesn't. The name is found by its hash, without
    /// another search of the graph.
    pub fn has(&self, name: &Wfn) -> bool
        ensures { result ≡ leads_to self.now.0 name.now self.now.1 }
    {
        cpe_rows::law::absent_names_are_alone();
        match self.dictionary.number_of(name) {
            Some(number) => has_number(&self.numbers, number),
            None => false,
        }
    }
}

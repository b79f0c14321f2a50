// An engine as the rows of certificates: they are made from its rows, and tested by them.
ghost use Rattle.std.specs.Prelude.{◌≡◌, IfOk, IfSome, None, find, slice_get, true};
ghost use Rattle.std.specs.Option.{option_copied, option_map_or};
ghost use Rattle.cpe_rows.specs.Verdict.{fact_truth, finds_item, is_followed, truth};
ghost use Rattle.certificate_search.specs.certificate_check.Leading.{followed};
ghost use Rattle.certificate_search.specs.certificate_check.Relates.{related};

use crate::engine::Engine;
use crate::leading::{ends_of, first_followed, first_shown};
use crate::slots::{first_related, item_of};
use crate::truths::kept_truth;
use certificate_search::{ExplainedRows, PlainRows, Relates};
use cpe_rows::{CheckKey, Deprecation, EntryRef, Memory, Mode, Statement, Text, Truth, Wfn};
use std::alloc::Global;

fn truth_of(is_covered: bool, may_be: bool) -> Truth
    ensures { result ≡ truth is_covered may_be }
{
    if is_covered {
        return Truth::True;
    }
    if may_be { Truth::Unknown } else { Truth::False }
}

impl Engine {
    /// The item at a place from 0. There is none exactly if the place is the number of items or more. If no slot is
    /// empty, it is found in one step; else the slots before it are passed one by one. Allocates: no.
    pub fn item_at(&self, k: usize) -> Option<&Wfn>
        ensures { option_copied result ≡ slice_get self.now.items k }
    {
        let slots = self.item_slots();
        item_of(&slots, self.items_len(), k)
    }

    // The first item that a name covers or may cover in a mode, as `relates` says. It compares the items one by one.
    fn first_compared(
        &self,
        alloc: Global,
        relates: Relates,
        mode: Mode,
        name: &Wfn,
    ) -> Result<Option<&Wfn>, Memory>
        ensures { IfOk result (λ item. option_copied item ≡ find (is_followed (related relates) (followed self.now mode) name.now) self.now.items) }
    {
        let slots = self.item_slots();
        match mode {
            Mode::Plain => Ok(first_related(&slots, relates, name)),
            Mode::Follow => {
                let found = first_followed(&self.parts.registry, alloc, &slots, relates, name)?;
                Ok(found)
            }
        }
    }

    // The first item that a name covers or may cover in a mode, as `relates` says. It is found by products if the name
    // is in lower case. The name of each fact of a statement is in lower case.
    fn sought_item(
        &self,
        alloc: Global,
        relates: Relates,
        mode: Mode,
        name: &Wfn,
    ) -> Result<Option<&Wfn>, Memory>
        ensures { IfOk result (λ item. option_copied item ≡ find (is_followed (related relates) (followed self.now mode) name.now) self.now.items) }
    {
        let parts = &self.parts;
        if name.is_lower() {
            let found = first_shown(&parts.registry, &parts.verdicts, alloc, relates, mode, name)?;
            return Ok(found);
        }
        self.first_compared(alloc, relates, mode, name)
    }
}

impl Engine {
    // The truth of a fact, if it is kept.
    fn stored_truth(&self, mode: Mode, name: &Wfn) -> Option<Truth>
        ensures { IfSome result (λ truth. truth ≡ fact_truth self.now mode name.now) }
    {
        kept_truth(&self.parts.registry, &self.parts.verdicts, mode, name)
    }

    // Whether the kept truth of a fact rules out each item that its name covers or may cover, as `relates` says.
    fn is_ruled_out(&self, relates: Relates, mode: Mode, name: &Wfn) -> bool
        ensures { result ≡ true → find (is_followed (related relates) (followed self.now mode) name.now) self.now.items ≡ None }
    {
        match self.stored_truth(mode, name) {
            Some(truth) => relates.is_ruled_out(truth),
            None => false,
        }
    }

    // Whether there is an item that a name covers or may cover in a mode, as `relates` says.
    fn is_found(
        &self,
        alloc: Global,
        relates: Relates,
        mode: Mode,
        name: &Wfn,
    ) -> Result<bool, Memory>
        ensures { IfOk result (λ found. found ≡ finds_item (related relates) self.now mode name.now) }
    {
        let item = self.sought_item(alloc, relates, mode, name)?;
        Ok(item.is_some())
    }

    // The truth of a fact, by a search among the items.
    fn sought_truth(&self, alloc: Global, mode: Mode, name: &Wfn) -> Result<Truth, Memory>
        ensures { IfOk result (λ truth. truth ≡ fact_truth self.now mode name.now) }
    {
        if self.is_found(alloc, Relates::Covers, mode, name)? {
            return Ok(Truth::True);
        }
        let may_be = self.is_found(alloc, Relates::MayCover, mode, name)?;
        Ok(truth_of(false, may_be))
    }
}

// The deprecation of the entry at a place, if it has one.
fn deprecation_at(engine: &Engine, place: usize) -> Option<&Deprecation>
    ensures { option_copied result ≡ option_map_or (λ e. e.deprecation) (slice_get engine.now.entries place) None }
{
    match engine.entry_at(place) {
        Some(entry) => entry.deprecation,
        None => None,
    }
}

impl PlainRows for Engine {
    ghost rows = { λ engine. engine };

    fn lawful(&self) {
        Engine::lawful(self);
    }

    fn entry(&self, k: usize) -> Option<EntryRef<'_>> {
        self.entry_at(k)
    }

    fn item(&self, k: usize) -> Option<&Wfn> {
        self.item_at(k)
    }

    fn statement(&self, k: usize) -> Option<&Statement> {
        match self.statement_at(k) {
            Some((statement, _)) => Some(statement),
            None => None,
        }
    }

    fn check(&self, k: usize) -> Option<(&CheckKey, Truth)> {
        self.check_at(k)
    }

    fn statement_of(&self, id: &Text) -> Option<&Statement> {
        self.parts.verdicts.find(id)
    }

    fn result_of(&self, key: &CheckKey) -> Truth {
        self.parts.verdicts.results().truth(key)
    }

    fn has_item(&self, name: &Wfn) -> bool {
        match self.parts.registry.find(name) {
            Some(id) => self.parts.registry.has_item(id),
            None => false,
        }
    }

    fn deprecation_of(&self, name: &Wfn) -> Option<&Deprecation> {
        match self.place_of(name) {
            Some(place) => deprecation_at(self, place as usize),
            None => None,
        }
    }

    fn find_fact(&self, alloc: Global, mode: Mode, name: &Wfn) -> Result<Truth, Memory> {
        match self.stored_truth(mode, name) {
            Some(truth) => Ok(truth),
            None => self.sought_truth(alloc, mode, name),
        }
    }
}

impl ExplainedRows for Engine {
    fn first_item(
        &self,
        alloc: Global,
        relates: Relates,
        mode: Mode,
        name: &Wfn,
    ) -> Result<Option<&Wfn>, Memory> {
        if self.is_ruled_out(relates, mode, name) {
            return Ok(None);
        }
        self.sought_item(alloc, relates, mode, name)
    }

    fn ends<'a>(&'a self, alloc: Global, name: &'a Wfn) -> Result<Vec<&'a Wfn>, Memory> {
        ends_of(&self.parts.registry, alloc, name)
    }
}

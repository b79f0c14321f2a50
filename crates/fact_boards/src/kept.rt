// The boards of both modes, and their changes by edits of the rows.
ghost use Rattle.std.specs.Prelude.{◌≡◌, ◌+◌, ◌≤◌, ◌||◌, ℕ, length, nat_lt};
ghost use Rattle.std.specs.List.{AllByRecursion};
ghost use Rattle.name_index.specs.Prelude.{IsLive, Names};
ghost use Rattle.name_index.specs.declared.table.NameId.{NameId};
ghost use Rattle.level_board.specs.Board.{ProbesAreMarks, probe_times, target_ids, target_times};
ghost use Rattle.cpe_rows.specs.Prelude.{fact_truth, no_rows, Rows, Values};
ghost use Rattle.cpe_rows.specs.declared.statement.Mode.{Mode};
ghost use Rattle.cpe_rows.specs.declared.statement.Mode.TheVariants.{Plain, Follow};
ghost use Rattle.fact_laws.specs.Shown.{names_at, times_in_list};
ghost use Rattle.fact_laws.specs.Asked.{leads};
ghost use Rattle.fact_boards.specs.Lists.{IsWide};
ghost use Rattle.fact_boards.specs.Kept.{AreFactNames, AreSettled, AreSound, board_of_mode, FitBoards, KeepsBoardRoom, ShowRows};
ghost use Rattle.fact_boards.specs.Moved.{EndsLed, FactsAsked, FactsUnasked, ItemArrives, ItemLeaves, MakesFactRoom, MayAddItem, MayLead};

use crate::lists::{arrive, ask, leave, truth_by, unask};
use cpe_rows::{Memory, Mode, Truth};
use level_board::LevelBoard;
use name_index::{NameId, NameTable, Steps};
use std::alloc::Global;
use std::marker::Model;
use std::slice::from_ref;
use std::sync::ledger::Ledger;

/// How many probes (`asked`) and targets (`there`) are to be added.
#[derive(Clone, Copy, Debug)]
pub struct WantedRoom {
    pub asked: u32,
    pub there: u32,
}

/// Two boards, one for each mode. The probes are the names to which the facts of the mode lead, and the targets are the
/// names to which the items lead.
#[derive(Drop)]
pub struct KeptFacts {
    plain: LevelBoard,
    follow: LevelBoard,
}

impl Model for KeptFacts {
    ghost use Rattle.fact_boards.specs.Kept.{Boards};

    ghost Value = { Boards };

    ghost view = { λ k. record { plain = k.plain; follow = k.follow } };
}

impl KeptFacts {
    /// Boards without facts and items. Allocates: no.
    pub fn new(alloc: Global) -> KeptFacts
        ensures shows { (names : Names) → ShowRows names result no_rows }
        ensures fits { (names : Names) → FitBoards result names }
        ensures settled { AreSettled result }
    {
        KeptFacts {
            plain: LevelBoard::new(alloc),
            follow: LevelBoard::new(alloc),
        }
    }

    /// Law: the levels and the marks of both boards are right.
    pub fn lawful(&self)
        ensures { AreSound self.now }
    {
        self.plain.lawful();
        self.follow.lawful();
    }

    /// Makes room for these numbers of further probes and targets in each mode. Their products may be those of any live
    /// name of the table.
    ///
    /// # Errors
    /// Only if memory runs out. The boards are then unchanged, except that they may have more room.
    pub fn reserve(
        &mut self,
        table: &NameTable,
        plain: WantedRoom,
        follow: WantedRoom,
    ) -> Result<(), Memory>
        requires plain_there { length (target_ids self.old.plain) + plain.there ≤ 536870912 }
        requires follow_there { length (target_ids self.old.follow) + follow.there ≤ 536870912 }
        ensures { MakesFactRoom self.old self.new table.now plain follow result }
    {
        self.plain.reserve(table, plain.asked, plain.there)?;
        self.follow.reserve(table, follow.asked, follow.there)
    }

    /// Adds an item as a target: its name in mode `plain`, its ends in mode `follow`. Allocates: no.
    pub fn add_item_to_boards<L: Ledger>(
        &mut self,
        table: &NameTable,
        item: NameId,
        ends: &[NameId],
        steps: &mut Steps<L>,
    )
        requires { MayAddItem self.old table.now item ends.now }
        ensures { ItemArrives self.old self.new table.now item ends.now steps.old steps.new }
    {
        table.lawful();
        arrive(&mut self.plain, table, from_ref(&item), steps);
        arrive(&mut self.follow, table, ends, steps);
    }

    /// Removes an item from the targets: its name in mode `plain`, its ends in mode `follow`. Allocates: no.
    pub fn remove_item_from_boards<L: Ledger>(
        &mut self,
        table: &NameTable,
        item: NameId,
        ends: &[NameId],
        steps: &mut Steps<L>,
    )
        requires fits { FitBoards self.old table.now }
        requires item { IsLive table.now item.0 }
        requires ends { AreFactNames table.now ends.now }
        requires there { 1 ≤ target_times self.old.plain item.0 }
        requires there_follow { (t : ℕ) → times_in_list t ends.now ≤ target_times self.old.follow t }
        requires settled { AreSettled self.old }
        ensures { ItemLeaves self.old self.new table.now item ends.now steps.old steps.new }
    {
        table.lawful();
        leave(&mut self.plain, table, from_ref(&item), steps);
        leave(&mut self.follow, table, ends, steps);
    }

    /// Adds the probes of a new statement of a mode: the names to which its new facts lead. A fact is new if no other
    /// statement of the mode refers to it. The list may be empty. It has the names of each fact once, in any order,
    /// however often the statement refers to the fact ([`keep_each_once`](crate::keep_each_once)). Allocates: no.
    pub fn ask<L: Ledger>(
        &mut self,
        table: &NameTable,
        mode: Mode,
        numbers: &[NameId],
        steps: &mut Steps<L>,
    )
        requires fits { FitBoards self.old table.now }
        requires live { AreFactNames table.now numbers.now }
        requires wide { IsWide (board_of_mode self.old mode) table.now }
        requires room { length numbers.now ≤ (board_of_mode self.old mode).probe_room }
        requires few { (p : ℕ) → probe_times (board_of_mode self.old mode) p + length numbers.now ≤ 4294967295 }
        ensures { FactsAsked self.old self.new table.now mode numbers.now steps.old steps.new }
    {
        table.lawful();
        match mode {
            Mode::Plain => ask(&mut self.plain, table, numbers, steps),
            Mode::Follow => ask(&mut self.follow, table, numbers, steps),
        }
    }

    /// Removes the probes of a statement of a mode, if the statement is removed or its addition is undone. The probes
    /// are the names to which its own facts lead, as for [`ask`](KeptFacts::ask). A fact is its own if no other
    /// statement of the mode refers to it. Takes no looks. Allocates: no.
    pub fn unask<L: Ledger>(
        &mut self,
        table: &NameTable,
        mode: Mode,
        numbers: &[NameId],
        steps: &mut Steps<L>,
    )
        requires fits { FitBoards self.old table.now }
        requires live { AreFactNames table.now numbers.now }
        requires asked { (p : ℕ) → times_in_list p numbers.now ≤ probe_times (board_of_mode self.old mode) p }
        ensures { FactsUnasked self.old self.new table.now mode numbers.now steps.old steps.new }
    {
        table.lawful();
        match mode {
            Mode::Plain => unask(&mut self.plain, table, numbers, steps),
            Mode::Follow => unask(&mut self.follow, table, numbers, steps),
        }
    }

    /// Moves items and facts from their old ends to their new ends, if the deprecation of an entry changes. Each fact
    /// is moved once, however many statements refer to it. Allocates: no.
    pub fn lead<L: Ledger>(
        &mut self,
        table: &NameTable,
        items_from: &[NameId],
        items_to: &[NameId],
        facts_from: &[NameId],
        facts_to: &[NameId],
        steps: &mut Steps<L>,
    )
        requires { MayLead self.old table.now items_from.now items_to.now facts_from.now facts_to.now }
        ensures { EndsLed self.old self.new table.now items_from.now items_to.now facts_from.now facts_to.now steps.old steps.new }
    {
        table.lawful();
        arrive(&mut self.follow, table, items_to, steps);
        leave(&mut self.follow, table, items_from, steps);
        ask(&mut self.follow, table, facts_to, steps);
        unask(&mut self.follow, table, facts_from, steps);
    }

    /// The truth of a fact, by the numbers of the names to which it leads, which must be probes of the mode. TRUE if
    /// one of these names covers a target; otherwise UNKNOWN if one may cover a target, which is known in part;
    /// otherwise FALSE. Takes no looks.
    pub fn truth(&self, mode: Mode, numbers: &[NameId]) -> Truth
        ensures { AllByRecursion (λ (x : NameId). 1 ≤ probe_times (board_of_mode self.now mode) x.0) numbers.now → (names : Names) (rows : Rows) (fact : Values)
            → FitBoards self.now names → ShowRows names self.now rows → names_at names numbers.now ≡ leads rows.entries mode fact → result ≡ fact_truth rows mode fact }
    {
        fact_laws::law::facts_are_asked();
        match mode {
            Mode::Plain => truth_by(&self.plain, numbers),
            Mode::Follow => truth_by(&self.follow, numbers),
        }
    }

    /// Whether a number is a probe or a target in a mode. Takes no looks.
    pub fn has(&self, mode: Mode, id: NameId) -> bool
        ensures { result ≡ (nat_lt 0 (probe_times (board_of_mode self.now mode) id.0) || nat_lt 0 (target_times (board_of_mode self.now mode) id.0)) }
    {
        match mode {
            Mode::Plain => self.plain.has(id),
            Mode::Follow => self.follow.has(id),
        }
    }

    /// The board of a mode.
    pub fn board(&self, mode: Mode) -> &LevelBoard
        ensures { result.now ≡ board_of_mode self.now mode }
    {
        match mode {
            Mode::Plain => &self.plain,
            Mode::Follow => &self.follow,
        }
    }

    /// The probes of a mode whose level may differ from their level at the last [`settle`](KeptFacts::settle). A number
    /// that isn't a probe any more may be in the list.
    pub fn marks(&self, mode: Mode) -> &[NameId]
        ensures value { result.now ≡ (board_of_mode self.now mode).marks }
        ensures whole { ProbesAreMarks (board_of_mode self.now mode) }
    {
        match mode {
            Mode::Plain => self.plain.marks(),
            Mode::Follow => self.follow.marks(),
        }
    }

    /// Removes the marks of all probes. Allocates: no.
    pub fn settle(&mut self)
        ensures shows { (names : Names) (rows : Rows) → ShowRows names self.old rows → ShowRows names self.new rows }
        ensures fits { (names : Names) → FitBoards self.old names → FitBoards self.new names }
        ensures settled { AreSettled self.new }
        ensures room { KeepsBoardRoom self.old.plain self.new.plain 0 0 }
        ensures room_follow { KeepsBoardRoom self.old.follow self.new.follow 0 0 }
    {
        self.plain.clear_marks();
        self.follow.clear_marks();
    }
}

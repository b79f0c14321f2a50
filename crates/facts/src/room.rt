// Calls that take memory for an edit, and the call that gives it up. None of them changes what the facts show of the rows.
ghost use Rattle.std.specs.Prelude.{◌≡◌, ◌≤◌, ℕ, [], List, None, false, true};
ghost use Rattle.cpe_rows.specs.Prelude.{IsLawful, Rows};
ghost use Rattle.fact_rows.specs.Facts.{fact_at, has_end_of_fact, is_fact, users_of};
ghost use Rattle.facts.specs.Facts.{HasFacts, table_of};
ghost use Rattle.facts.specs.Room.{EndsLinked, RoomForUsers, RoomOnBoards, UnusedAdded, UnusedRemoved};

use crate::facts::Facts;
use crate::users::{remove_facts, reserve_users};
use cpe_rows::{Memory, Mode};
use fact_boards::WantedRoom;
use name_index::{NameId, NameTable};
use std::alloc::Global;

impl Facts {
    /// Adds a fact of a mode with these ends, which no statement uses yet.
    ///
    /// # Errors
    /// Only that memory ran out. It is then no fact.
    pub fn add_fact(
        &mut self,
        alloc: Global,
        mode: Mode,
        fact: NameId,
        ends: Vec<NameId>,
    ) -> Result<(), Memory>
        requires { fact_at (table_of self.old mode) fact.0 ≡ None }
        ensures { UnusedAdded self.old self.new mode fact.0 ends.items result }
    {
        match mode {
            Mode::Plain => self.plain.add_fact(alloc, fact, ends),
            Mode::Follow => self.follow.add_fact(alloc, fact, ends),
        }
    }

    /// Removes facts of a mode that no statement uses, and whose truth the last edit did not replace. Allocates: no.
    pub fn remove_unused(&mut self, mode: Mode, unused: &[NameId])
        requires users { (q : ℕ) → has_end_of_fact unused.now q ≡ true → users_of (table_of self.old mode) q ≡ [] }
        requires unchanged { (q : ℕ) → has_end_of_fact unused.now q ≡ true → has_end_of_fact (table_of self.old mode).changed q ≡ false }
        ensures { UnusedRemoved self.old self.new mode unused.now }
    {
        match mode {
            Mode::Plain => remove_facts(&mut self.plain, unused),
            Mode::Follow => remove_facts(&mut self.follow, unused),
        }
    }

    /// Reserves room for one more user of each of these facts of a mode.
    ///
    /// # Errors
    /// Only that memory ran out.
    pub fn reserve_users(&mut self, mode: Mode, ids: &[NameId]) -> Result<(), Memory>
        requires { (q : ℕ) → has_end_of_fact ids.now q ≡ true → is_fact (table_of self.old mode) q ≡ true }
        ensures { RoomForUsers self.old self.new mode ids.now result }
    {
        match mode {
            Mode::Plain => reserve_users(&mut self.plain, ids),
            Mode::Follow => reserve_users(&mut self.follow, ids),
        }
    }

    /// Links a fact of mode follow to ends that it will have ([`Facts::lead`]).
    ///
    /// # Errors
    /// Only that memory ran out. It may then be linked to some of them.
    pub fn link(&mut self, alloc: Global, fact: NameId, ends: &[NameId]) -> Result<(), Memory>
        ensures { EndsLinked self.old self.new fact.0 ends.now result }
    {
        self.follow.link(alloc, fact, ends)
    }

    /// Reserves room on the boards for names that will be asked, and for names that items will have.
    ///
    /// # Errors
    /// Only that memory ran out.
    pub fn reserve(
        &mut self,
        table: &NameTable,
        plain: WantedRoom,
        follow: WantedRoom,
    ) -> Result<(), Memory>
        requires few { plain.there ≤ 268435456 }
        requires few_follow { follow.there ≤ 268435456 }
        requires rows_before { (rows : Rows) × (tickets : List ℕ) × IsLawful rows × HasFacts table.now self.old rows tickets }
        ensures { RoomOnBoards self.old self.new table.now plain follow result }
    {
        table.lawful();
        fact_boards::law::few_present();
        self.boards.lawful();
        self.boards.reserve(table, plain, follow)
    }
}

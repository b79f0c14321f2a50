// The outcome of records.
ghost use Rattle.std.specs.Prelude.{◌≡◌, ◌+◌, Ok, OnOk, OnErr, true};
ghost use Rattle.cpe_engine.specs.step_count.Within.{StepsWithin};
ghost use Rattle.cpe_rows.specs.Valid.{is_valid_edit, is_valid_query};
ghost use Rattle.cpe_engine.specs.Looks.{edit_looks, query_looks};
ghost use Rattle.cpe_records.specs.Reading.{record_of};
ghost use Rattle.drill_lines.specs.Drill.{drilled};
ghost use Rattle.drill_lines.specs.Looks.{record_looks};
ghost use Rattle.drill_lines.specs.Outcome.{found_by};

use cpe_engine::{Engine, Steps};
use cpe_records::{Record, RecordFault, read_record};
use cpe_rows::{Edit, EditFault, Query, Reply};
use std::alloc::{AllocError, Global};
use std::sync::ledger::Ledger;

/// The outcome of records: the rows that they left, how many of them were refused, and how many entries their
/// searches found.
#[derive(Drop)]
pub struct Drilled {
    /// The engine that keeps the rows.
    pub engine: Engine,
    /// The number of records that were refused, or that could not be read.
    pub refused: u64,
    /// The number of entries that all searches found.
    pub found: u64,
}

impl Drilled {
    /// The outcome before the first record. The engine keeps its rows.
    pub fn new(engine: Engine) -> Drilled
        ensures { result ≡ record { engine = engine; refused = 0; found = 0 } }
    {
        Drilled {
            engine,
            refused: 0,
            found: 0,
        }
    }

    /// The engine that keeps the rows.
    pub fn into_engine(self) -> Engine
        ensures { result ≡ self.engine }
    {
        let Drilled { engine, .. } = self;
        engine
    }

    /// Reads a text as a record. Applies its edit or answers its question, and adds to the counts of refused records
    /// and found entries.
    ///
    /// # Errors
    /// Memory ran out, or a count would need more than 64 bits. The outcome is unchanged then.
    pub fn read<L: Ledger>(
        &mut self,
        alloc: Global,
        text: &[u8],
        steps: &mut Steps<L>,
    ) -> Result<(), AllocError>
        ensures outcome { OnOk result (self.new ≡ drilled self.old (record_of text.now)) }
        ensures err { OnErr result (self.new ≡ self.old) }
        ensures counts { StepsWithin steps.old steps.new (record_looks self.old.engine (record_of text.now)) }
    {
        match read_record(alloc, text) {
            Ok(Record::Edit(edit)) => self.edit(edit, steps),
            Ok(Record::Query(query)) => self.ask(alloc, query, steps),
            Err(RecordFault::Memory) => Err(AllocError),
            Err(_) => self.refuse(),
        }
    }

    fn edit<L: Ledger>(&mut self, edit: Edit, steps: &mut Steps<L>) -> Result<(), AllocError>
        requires { is_valid_edit edit ≡ true }
        ensures outcome { OnOk result (self.new ≡ drilled self.old (Ok (Record.Edit edit))) }
        ensures err { OnErr result (self.new ≡ self.old) }
        ensures counts { StepsWithin steps.old steps.new (edit_looks self.old.engine edit) }
    {
        match self.engine.apply(edit, steps) {
            Ok(changes) => {
                drop(changes);
                Ok(())
            }
            Err(EditFault::Memory) => Err(AllocError),
            Err(fault) => self.refuse_for(fault),
        }
    }

    fn ask<L: Ledger>(
        &mut self,
        alloc: Global,
        query: Query,
        steps: &mut Steps<L>,
    ) -> Result<(), AllocError>
        requires { is_valid_query query ≡ true }
        ensures outcome { OnOk result (self.new ≡ drilled self.old (Ok (Record.Query query))) }
        ensures err { OnErr result (self.new ≡ self.old) }
        ensures counts { StepsWithin steps.old steps.new (query_looks self.old.engine query) }
    {
        match self.engine.answer(alloc, query, steps) {
            Ok(reply) => self.find_in(reply),
            Err(_) => Err(AllocError),
        }
    }

    // Counts a refused record, and drops the fault.
    fn refuse_for(&mut self, fault: EditFault) -> Result<(), AllocError>
        ensures ok { OnOk result (self.new ≡ record { engine = self.old.engine; refused = self.old.refused + 1; found = self.old.found }) }
        ensures err { OnErr result (self.new ≡ self.old) }
    {
        drop(fault);
        self.refuse()
    }

    fn refuse(&mut self) -> Result<(), AllocError>
        ensures ok { OnOk result (self.new ≡ record { engine = self.old.engine; refused = self.old.refused + 1; found = self.old.found }) }
        ensures err { OnErr result (self.new ≡ self.old) }
    {
        match self.refused.checked_add(1) {
            Some(refused) => {
                self.refused = refused;
                Ok(())
            }
            None => Err(AllocError),
        }
    }

    // Adds to the count how many entries an answer found, and drops the answer.
    fn find_in(&mut self, reply: Reply) -> Result<(), AllocError>
        ensures ok { OnOk result (self.new ≡ record { engine = self.old.engine; refused = self.old.refused; found = self.old.found + found_by reply }) }
        ensures err { OnErr result (self.new ≡ self.old) }
    {
        let more = found_by(&reply);
        drop(reply);
        self.find(more)
    }

    fn find(&mut self, more: u64) -> Result<(), AllocError>
        ensures ok { OnOk result (self.new ≡ record { engine = self.old.engine; refused = self.old.refused; found = self.old.found + more }) }
        ensures err { OnErr result (self.new ≡ self.old) }
    {
        match self.found.checked_add(more) {
            Some(found) => {
                self.found = found;
                Ok(())
            }
            None => Err(AllocError),
        }
    }
}

// The number of entries that an answer lists as found.
fn found_by(reply: &Reply) -> u64
    ensures { result ≡ found_by reply.now }
{
    match reply {
        Reply::Search { rows, .. } => rows.len() as u64,
        _ => 0,
    }
}

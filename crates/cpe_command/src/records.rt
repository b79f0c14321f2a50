// What is written for a line with a record.
ghost use Rattle.std.specs.Prelude.{◌≡◌, ◌++◌, [], ℕ, List, true, None, Err, IfOk, OnErr, OnOk, option_map};
ghost use Rattle.line_session.specs.Prelude.{IsBeforeOrAfter, IsAppended, StepsWithin};
ghost use Rattle.cpe_rows.specs.Prelude.{answer, step};
ghost use Rattle.cpe_rows.specs.Valid.{is_valid_edit, is_valid_query};
ghost use Rattle.engine_snapshot.specs.cpe_engine.Looks.{edit_looks, query_looks};
ghost use Rattle.line_replies.specs.Replies.{reply_text};
ghost use Rattle.line_replies.specs.Reasons.{reason_text, record_fault_text};
ghost use Rattle.certificate_records.specs.Gives.{ReadsCertificate};
ghost use Rattle.cpe_command.specs.Records.{by_certificate_line, record_step, edit_text, certificate_in, query_text, record_session};

use crate::certificates::{pour_certificates, say_checked};
use crate::changes::say_changes;
use crate::save::pour_snapshot;
use crate::table::pour_verdicts;
use certificate_check::Certificate;
use certificate_records::{CertificateFault, read_certificate};
use cpe_records::{Record, RecordFault, read_record};
use cpe_rows::{Edit, EditFault, Query, Wfn};
use engine_snapshot::Engine;
use line_replies::{RecordReason, push_chain_lent, push_reply};
use line_session::{NumberedLine, Page, Sink, SinkFault, Speaker, Steps};
use std::alloc::{AllocError, Global};
use std::sync::ledger::Ledger;

/// A command whose lines are records: an edit is applied to the rows of the engine, and a question is answered from
/// them.
#[derive(Clone, Copy, Debug, PartialEq, Eq)]
pub enum RecordCommand {
    /// At the end of the input, nothing is written.
    Resolve,
    /// At the end, the verdicts of all statements are written.
    Evaluate,
    /// After an edit, the verdicts that it changes are written. At the end, nothing is written.
    Watch,
    /// At the end, the certificates of the verdicts are written, one for each statement.
    Explain,
    /// A line may also be a certificate; the result of its test is written. At the end, nothing is written.
    Check,
    /// For a line, nothing is written. At the end, the snapshot of the rows is written.
    Save,
}

impl Speaker for RecordCommand {
    type State = Engine;

    type Reason = RecordReason;

    ghost session = { record_session };

    fn is_quiet(&self) -> bool {
        match self {
            RecordCommand::Resolve
            | RecordCommand::Evaluate
            | RecordCommand::Watch
            | RecordCommand::Explain
            | RecordCommand::Check => false,
            RecordCommand::Save => true,
        }
    }

    fn say<L: Ledger>(
        &self,
        alloc: Global,
        state: &mut Engine,
        page: &mut Page,
        line: &NumberedLine<'_>,
        steps: &mut Steps<L>,
    ) -> Result<Option<RecordReason>, AllocError> {
        match read_record(alloc, line.text) {
            Ok(Record::Edit(edit)) => self.say_edit(alloc, state, page, line.number, edit, steps),
            Ok(Record::Query(query)) => self.say_query(alloc, state, page, query, steps),
            Err(RecordFault::Memory) => Err(AllocError),
            Err(fault) => self.say_unread(alloc, state, page, line.text, fault),
        }
    }

    fn say_end<K: Sink, L: Ledger>(
        &self,
        alloc: Global,
        state: &Engine,
        page: &mut Page,
        sink: &mut K,
        steps: &mut Steps<L>,
    ) -> Result<(), SinkFault> {
        let _ = steps;
        match self {
            RecordCommand::Resolve | RecordCommand::Watch | RecordCommand::Check => Ok(()),
            RecordCommand::Evaluate => pour_verdicts(alloc, state, page, sink),
            RecordCommand::Explain => pour_certificates(alloc, state, page, sink),
            RecordCommand::Save => pour_snapshot(alloc, state, page, sink),
        }
    }
}

impl RecordCommand {
    // The certificate that a line is, if the command accepts certificates.
    fn certificate_in(
        &self,
        alloc: Global,
        text: &[u8],
    ) -> Result<Option<Certificate>, CertificateFault>
        ensures { ReadsCertificate result (certificate_in self.now text.now) }
    {
        match self {
            RecordCommand::Check => read_certificate(alloc, text),
            RecordCommand::Resolve
            | RecordCommand::Evaluate
            | RecordCommand::Watch
            | RecordCommand::Explain
            | RecordCommand::Save => Ok(None),
        }
    }

    // Answers a line that is no record. If the command accepts certificates and the line is one, appends the result
    // of its test. Otherwise returns why the line is refused.
    #[inline(never)]
    fn say_unread(
        &self,
        alloc: Global,
        engine: &Engine,
        page: &mut Page,
        text: &[u8],
        fault: RecordFault,
    ) -> Result<Option<RecordReason>, AllocError>
        ensures { IfOk result (λ refused. IsAppended (by_certificate_line engine.now (certificate_in self.now text.now) (Err (record_fault_text fault)))
            engine.now engine.now page.old page.new (option_map reason_text refused)) }
    {
        match self.certificate_in(alloc, text) {
            Ok(Some(certificate)) => say_checked(alloc, engine, page, certificate),
            Ok(None) => Ok(Some(RecordReason::Unread(fault))),
            Err(CertificateFault::Memory) => Err(AllocError),
            Err(fault) => Ok(Some(RecordReason::Unproved(fault))),
        }
    }

    // Applies an edit, and appends what the command writes for it. If the edit can't be applied, returns why.
    fn say_edit<L: Ledger>(
        &self,
        alloc: Global,
        engine: &mut Engine,
        page: &mut Page,
        number: u64,
        edit: Edit,
        steps: &mut Steps<L>,
    ) -> Result<Option<RecordReason>, AllocError>
        requires { is_valid_edit edit ≡ true }
        ensures said { IfOk result (λ refused. IsAppended (record_step (edit_text self.now number engine.old edit) (step engine.old edit))
            engine.old engine.new page.old page.new (option_map reason_text refused)) }
        ensures err { OnErr result (IsBeforeOrAfter (record_step (edit_text self.now number engine.old edit) (step engine.old edit)) engine.old engine.new) }
        ensures counts { StepsWithin steps.old steps.new (edit_looks engine.old edit) }
    {
        match self {
            RecordCommand::Resolve
            | RecordCommand::Evaluate
            | RecordCommand::Explain
            | RecordCommand::Check
            | RecordCommand::Save => make_edit(engine, edit, steps),
            RecordCommand::Watch => say_changes(alloc, engine, page, number, edit, steps),
        }
    }

    // Appends the answer to a question. The command `save` writes no answers, so it drops the question.
    fn say_query<L: Ledger>(
        &self,
        alloc: Global,
        engine: &Engine,
        page: &mut Page,
        query: Query,
        steps: &mut Steps<L>,
    ) -> Result<Option<RecordReason>, AllocError>
        requires { is_valid_query query ≡ true }
        ensures said { IfOk result (λ refused. (refused ≡ None) × (page.new ≡ page.old ++ query_text self.now engine.now query)) }
        ensures counts { StepsWithin steps.old steps.new (query_looks engine.now query) }
    {
        match self {
            RecordCommand::Resolve
            | RecordCommand::Evaluate
            | RecordCommand::Watch
            | RecordCommand::Explain
            | RecordCommand::Check => say_answer(alloc, engine, page, query, steps),
            RecordCommand::Save => {
                drop(query);
                Ok(None)
            }
        }
    }
}

// Applies an edit, and writes nothing for it. If the edit can't be applied, returns why.
#[inline(never)]
fn make_edit<L: Ledger>(
    engine: &mut Engine,
    edit: Edit,
    steps: &mut Steps<L>,
) -> Result<Option<RecordReason>, AllocError>
    requires { is_valid_edit edit ≡ true }
    ensures said { IfOk result (λ refused.
        (page : List ℕ) → IsAppended (record_step (λ next. []) (step engine.old edit)) engine.old engine.new page page (option_map reason_text refused)) }
    ensures err { OnErr result (engine.new ≡ engine.old) }
    ensures counts { StepsWithin steps.old steps.new (edit_looks engine.old edit) }
{
    match engine.apply(edit, steps) {
        Ok(changes) => {
            drop(changes);
            Ok(None)
        }
        Err(EditFault::Memory) => Err(AllocError),
        Err(fault) => Ok(Some(RecordReason::Refused(fault))),
    }
}

// Appends the answer to a question.
fn say_answer<L: Ledger>(
    alloc: Global,
    engine: &Engine,
    page: &mut Page,
    query: Query,
    steps: &mut Steps<L>,
) -> Result<Option<RecordReason>, AllocError>
    requires { is_valid_query query ≡ true }
    ensures said { IfOk result (λ refused. (refused ≡ None) × (page.new ≡ page.old ++ reply_text (answer engine.now query))) }
    ensures counts { StepsWithin steps.old steps.new (query_looks engine.now query) }
{
    match query {
        Query::Chain(name) => say_chain(alloc, engine, page, name),
        other => say_reply(alloc, engine, page, other, steps),
    }
}

// Appends the answer to a question for a chain. The names of the chain are lent, and none is copied.
#[inline(never)]
fn say_chain(
    alloc: Global,
    engine: &Engine,
    page: &mut Page,
    name: Wfn,
) -> Result<Option<RecordReason>, AllocError>
    ensures { IfOk result (λ refused. (refused ≡ None) × (page.new ≡ page.old ++ reply_text (answer engine.now (Query.Chain name)))) }
{
    let said = push_chain_of(alloc, engine, page, &name);
    drop(name);
    said?;
    Ok(None)
}

// Appends the lines of the name's chain.
fn push_chain_of(
    alloc: Global,
    engine: &Engine,
    page: &mut Page,
    name: &Wfn,
) -> Result<(), AllocError>
    ensures { OnOk result (page.new ≡ page.old ++ reply_text (answer engine.now (Query.Chain name.now))) }
{
    match engine.chain_lent(alloc, name) {
        Ok(links) => push_chain_lent(alloc, page, name, &links),
        Err(_) => Err(AllocError),
    }
}

// Appends the answer to a question of any kind.
#[inline(never)]
fn say_reply<L: Ledger>(
    alloc: Global,
    engine: &Engine,
    page: &mut Page,
    query: Query,
    steps: &mut Steps<L>,
) -> Result<Option<RecordReason>, AllocError>
    requires { is_valid_query query ≡ true }
    ensures said { IfOk result (λ refused. (refused ≡ None) × (page.new ≡ page.old ++ reply_text (answer engine.now query))) }
    ensures counts { StepsWithin steps.old steps.new (query_looks engine.now query) }
{
    match engine.answer(alloc, query, steps) {
        Ok(reply) => {
            push_reply(alloc, page, &reply)?;
            Ok(None)
        }
        Err(_) => Err(AllocError),
    }
}

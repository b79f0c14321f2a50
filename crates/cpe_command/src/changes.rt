// The verdicts that an edit changes.
ghost use Rattle.std.specs.Prelude.{◌≡◌, ◌++◌, true, IfOk, OnErr, OnOk, option_map, flat_map};
ghost use Rattle.line_session.specs.Prelude.{IsBeforeOrAfter, IsAppended, StepsWithin};
ghost use Rattle.cpe_rows.specs.Prelude.{is_valid_edit, step};
ghost use Rattle.engine_snapshot.specs.cpe_engine.Looks.{edit_looks};
ghost use Rattle.line_replies.specs.Replies.{change_line, changed_id, dropped_id, statement_id};
ghost use Rattle.line_replies.specs.Reasons.{reason_text};
ghost use Rattle.cpe_command.specs.Records.{record_step, edit_text};

use crate::records::RecordCommand;
use cpe_rows::{Changed, Edit, EditFault, Text};
use engine_snapshot::Engine;
use line_replies::{RecordReason, push_change};
use line_session::{Page, Steps};
use std::alloc::{AllocError, Global};
use std::sync::ledger::Ledger;

/// Applies an edit, and appends its changed verdicts to the page. If the edit can't be applied, returns why.
#[inline(never)]
pub(crate) fn say_changes<L: Ledger>(
    alloc: Global,
    engine: &mut Engine,
    page: &mut Page,
    number: u64,
    edit: Edit,
    steps: &mut Steps<L>,
) -> Result<Option<RecordReason>, AllocError>
    requires { is_valid_edit edit ≡ true }
    ensures said { IfOk result (λ refused. IsAppended (record_step (edit_text RecordCommand.Watch number engine.old edit) (step engine.old edit))
        engine.old engine.new page.old page.new (option_map reason_text refused)) }
    ensures err { OnErr result (IsBeforeOrAfter (record_step (edit_text RecordCommand.Watch number engine.old edit) (step engine.old edit)) engine.old engine.new) }
    ensures counts { StepsWithin steps.old steps.new (edit_looks engine.old edit) }
{
    match copy_dropped_id(alloc, &edit) {
        Ok(dropped) => say_applied(engine, page, number, edit, &dropped, steps),
        Err(_) => {
            drop(edit);
            Err(AllocError)
        }
    }
}

// Applies an edit as `say_changes` does. `dropped` is the id of the statement that the edit removes, if it removes
// one.
fn say_applied<L: Ledger>(
    engine: &mut Engine,
    page: &mut Page,
    number: u64,
    edit: Edit,
    dropped: &Option<Text>,
    steps: &mut Steps<L>,
) -> Result<Option<RecordReason>, AllocError>
    requires valid { is_valid_edit edit ≡ true }
    requires drops { dropped.now ≡ dropped_id edit }
    ensures said { IfOk result (λ refused. IsAppended (record_step (edit_text RecordCommand.Watch number engine.old edit) (step engine.old edit))
        engine.old engine.new page.old page.new (option_map reason_text refused)) }
    ensures err { OnErr result (IsBeforeOrAfter (record_step (edit_text RecordCommand.Watch number engine.old edit) (step engine.old edit)) engine.old engine.new) }
    ensures counts { StepsWithin steps.old steps.new (edit_looks engine.old edit) }
{
    match engine.apply(edit, steps) {
        Ok(changes) => {
            push_changes(page, number, engine, dropped, changes.as_slice())?;
            Ok(None)
        }
        Err(EditFault::Memory) => Err(AllocError),
        Err(fault) => Ok(Some(RecordReason::Refused(fault))),
    }
}

// The id of the statement that an edit removes. It is copied, because the rows don't have it after the edit.
fn copy_dropped_id(alloc: Global, edit: &Edit) -> Result<Option<Text>, AllocError>
    ensures { IfOk result (λ id. id ≡ dropped_id edit.now) }
{
    let Edit::DropStatement(id) = edit else {
        return Ok(None);
    };
    match id.copy(alloc) {
        Ok(id) => Ok(Some(id)),
        Err(_) => Err(AllocError),
    }
}

// Appends a line for each change. The engine has applied the edit already.
fn push_changes(
    page: &mut Page,
    number: u64,
    engine: &Engine,
    dropped: &Option<Text>,
    changes: &[Changed],
) -> Result<(), AllocError>
    ensures { OnOk result (page.new ≡ page.old
        ++ flat_map (λ c. change_line number (changed_id engine.now.statements dropped.now c) c) changes.now) }
{
    for change in changes {
        let id = changed_id(engine, dropped, change);
        push_change(page, number, id, change)?;
    }
    Ok(())
}

// The id of the statement whose verdict changed.
fn changed_id<'t>(engine: &'t Engine, dropped: &'t Option<Text>, change: &Changed) -> &'t str
    ensures { result.now ≡ changed_id engine.now.statements dropped.now change.now }
{
    if change.after.is_some() {
        return statement_id(engine, change.place as usize);
    }
    match dropped {
        Some(id) => id.as_str(),
        None => "",
    }
}

// The id of the statement at a place, counted from 0.
fn statement_id(engine: &Engine, place: usize) -> &str
    ensures { result.now ≡ statement_id engine.now.statements place }
{
    match engine.statement_at(place) {
        Some((statement, _)) => statement.id.as_str(),
        None => "",
    }
}

// Edits that set or remove the result of a check.
ghost use Rattle.std.specs.Prelude.{◌≡◌, []};
ghost use Rattle.cpe_rows.specs.Prelude.{after, changes};
ghost use Rattle.engine_edits.specs.Moved.{MadeReady, MayBeReady};
ghost use Rattle.engine_edits.specs.Parts.{AreOf, rows_in};
ghost use Rattle.engine_edits.specs.Ready.{edit_ready, IsReady};

use crate::numbered::NumberedEdit;
use crate::parts::EngineParts;
use crate::ready::Ready;
use check_results::ReadyResult;
use cpe_rows::{Changed, CheckKey, List, Memory, Room, Truth};

/// Takes all memory for the result of a check.
///
/// # Errors
/// Only that memory ran out.
pub(crate) fn ready_check(
    parts: &mut EngineParts,
    key: CheckKey,
    truth: Truth,
) -> Result<Ready, Memory>
    requires { MayBeReady parts.old (NumberedEdit.SetCheck key truth) }
    ensures { MadeReady parts.old parts.new (NumberedEdit.SetCheck key truth) result }
{
    match parts.verdicts.ready_result(key) {
        Ok(key) => Ok(Ready::SetCheck { key, truth }),
        Err(memory) => Err(memory),
    }
}

/// Sets the result of a check, and returns the verdicts that change.
pub(crate) fn make_check(
    parts: &mut EngineParts,
    key: ReadyResult,
    truth: Truth,
    room: Room<Changed>,
) -> List<Changed>
    requires { IsReady parts.old (Ready.SetCheck key truth) room }
    ensures are { AreOf parts.new.registry parts.new.verdicts (after (rows_in parts.old) (edit_ready parts.old.registry.table (Ready.SetCheck key truth))) [] }
    ensures changes { result ≡ changes (rows_in parts.old) (edit_ready parts.old.registry.table (Ready.SetCheck key truth)) }
{
    parts.verdicts.set_result(key, truth);
    parts.verdicts.changes(room)
}

/// Removes the result of a check, and returns the verdicts that change.
pub(crate) fn make_dropped_check(
    parts: &mut EngineParts,
    key: CheckKey,
    room: Room<Changed>,
) -> List<Changed>
    requires { IsReady parts.old (Ready.DropCheck key) room }
    ensures are { AreOf parts.new.registry parts.new.verdicts (after (rows_in parts.old) (edit_ready parts.old.registry.table (Ready.DropCheck key))) [] }
    ensures changes { result ≡ changes (rows_in parts.old) (edit_ready parts.old.registry.table (Ready.DropCheck key)) }
{
    parts.verdicts.remove_result(&key);
    parts.verdicts.changes(room)
}

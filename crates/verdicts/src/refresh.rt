// Statements that use a fact whose truth was replaced are judged.
ghost use Rattle.std.specs.Prelude.{◌≡◌, ◌++◌};
ghost use Rattle.cpe_rows.specs.declared.statement.Mode.TheVariants.{Plain, Follow};
ghost use Rattle.statement_rows.specs.State.{SameRoom, at_tickets, judge};
ghost use Rattle.verdicts.specs.Verdicts.{truths_in, users_of_changed};

use crate::truths::Truths;
use cpe_rows::Mode;
use facts::Facts;
use statement_rows::StatementRows;

// Judges the statements that use a fact of a mode whose truth the last edit replaced.
fn refresh_mode(statements: &mut StatementRows, facts: &Facts, mode: Mode)
    ensures rows { statements.new.rows ≡ at_tickets (users_of_changed facts.now mode) (judge (truths_in facts.now) statements.old.checks) statements.old.rows }
    ensures checks { statements.new.checks ≡ statements.old.checks }
    ensures room { SameRoom statements.old statements.new }
{
    statement_rows::law::refreshes_add_up();
    let truths = Truths { facts };
    for fact in facts.changed(mode) {
        statements.refresh(facts.users(mode, *fact), &truths);
    }
}

// The same for both modes.
pub(crate) fn refresh(statements: &mut StatementRows, facts: &Facts)
    ensures rows { statements.new.rows ≡ at_tickets (users_of_changed facts.now Plain ++ users_of_changed facts.now Follow) (judge (truths_in facts.now) statements.old.checks) statements.old.rows }
    ensures checks { statements.new.checks ≡ statements.old.checks }
    ensures room { SameRoom statements.old statements.new }
{
    statement_rows::law::refreshes_add_up();
    refresh_mode(statements, facts, Mode::Plain);
    refresh_mode(statements, facts, Mode::Follow);
}

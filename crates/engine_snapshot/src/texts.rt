// Texts are UTF-8 by their type. These functions do nothing: their clauses say so for each row.
ghost use Rattle.std.specs.List.{AllByRecursion};
ghost use Rattle.cpe_rows.specs.Lent.{entry_lent};
ghost use Rattle.cpe_rows.specs.declared.entry.Note.{Note as NoteRow};
ghost use Rattle.snapshot_bytes.specs.States.{IsString, IsTextEntry, IsTextKey, IsTextStatement, keys_of};

use cpe_rows::{CheckKey, EntryRef, Note, Statement, Test, Text};

fn is_text(text: &Text)
    ensures { IsString text.now }
{
    let _string = text.as_str();
}

fn are_comments(notes: &[Note])
    ensures { AllByRecursion (λ (n : NoteRow). IsString n.comment) notes.now }
{
    for note in notes {
        is_text(&note.comment);
    }
}

/// The texts of an entry are UTF-8.
pub(crate) fn are_entry_texts(put: EntryRef<'_>)
    ensures { IsTextEntry (entry_lent put.entry) }
{
    is_text(put.title);
    is_text(&put.provenance.submitter);
    is_text(&put.provenance.authority);
    are_comments(put.provenance.notes.as_slice());
}

/// The texts of a key are UTF-8.
pub(crate) fn are_key_texts(key: &CheckKey)
    ensures { IsTextKey key.now }
{
    is_text(&key.system);
    is_text(&key.href);
    is_text(&key.id);
}

fn are_test_texts(test: &Test)
    ensures { AllByRecursion IsTextKey (keys_of test.now) }
{
    match test {
        Test::Logic { of, .. } => {
            for child in of.as_slice() {
                are_test_texts(child);
            }
        }
        Test::Fact(_) => {}
        Test::Check(key) => are_key_texts(key),
    }
}

/// The texts of a statement are UTF-8.
pub(crate) fn are_statement_texts(statement: &Statement)
    ensures { IsTextStatement statement.now }
{
    is_text(&statement.id);
    is_text(&statement.title);
    are_test_texts(&statement.test);
}

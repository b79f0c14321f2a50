// Properties that each edit has by the types of its parts. These functions do nothing: their clauses are the
// properties.
ghost use Rattle.std.specs.Prelude.{All};
ghost use Rattle.cpe_name.specs.Names.{IsName};
ghost use Rattle.cpe_rows.specs.Chains.{successors_of};
ghost use Rattle.cpe_rows.specs.FactNames.{fact_names};
ghost use Rattle.cpe_rows.specs.Formed.{IsDated, IsFormed, IsFormedEntry, IsFormedStatement};

use crate::edit::Edit;
use crate::entry::{Entry, Note};
use crate::statement::Statement;
use crate::test::Test;
use cpe_name::Wfn;

fn are_names(names: &[Wfn])
    ensures { All IsName names.now }
{
    for name in names {
        name.lawful();
    }
}

fn are_dated(notes: &[Note])
    ensures { All IsDated notes.now }
{
    for note in notes {
        note.date.lawful();
    }
}

fn are_facts(test: &Test)
    ensures { All IsName (fact_names test.now) }
{
    match test {
        Test::Logic { of, .. } => {
            for child in of.as_slice() {
                are_facts(child);
            }
        }
        Test::Fact(name) => name.as_name().lawful(),
        Test::Check(_) => {}
    }
}

fn is_formed_entry(entry: &Entry)
    ensures { IsFormedEntry entry.now }
{
    entry.name.lawful();
    are_dated(entry.provenance.notes.as_slice());
    if let Some(deprecation) = &entry.deprecation {
        are_names(deprecation.successors.as_slice());
    }
}

fn is_formed_statement(statement: &Statement)
    ensures { IsFormedStatement statement.now }
{
    are_facts(&statement.test);
}

impl Edit {
    /// Law: the names of each edit are well-formed (NIST IR 7695, 5), and its dates have the form of a date.
    pub fn formed(&self)
        ensures { IsFormed self.now }
    {
        match self {
            Edit::Entry(entry) => is_formed_entry(entry),
            Edit::Item(name) | Edit::DropItem(name) => name.lawful(),
            Edit::Deprecate {
                name,
                deprecation,
                date,
                ..
            }
            | Edit::Amend {
                name,
                deprecation,
                date,
                ..
            } => {
                name.lawful();
                are_names(deprecation.successors.as_slice());
                date.lawful();
            }
            Edit::Restore { name, date, .. } => {
                name.lawful();
                date.lawful();
            }
            Edit::PutStatement(statement) => is_formed_statement(statement),
            Edit::DropStatement(_) | Edit::SetCheck { .. } | Edit::DropCheck(_) => {}
        }
    }
}

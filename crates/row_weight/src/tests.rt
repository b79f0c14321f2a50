// Tests of the weight of rows, by numbers that were counted by hand. Each tested value is computed in a function
// without clauses. So the prover doesn't need the clauses of the called functions in the tests, which would take long.
// For the same reason a function drops the rows.
use crate::{with_active_entry, with_deprecation, with_name, with_statement};
use cpe_fs::unbind_fs;
use cpe_rows::{
    Attribute, BoxedName, CheckKey, Date, Deprecation, Edge, Entry, Kind, List, Memory, Mode, Note,
    NoteKind, Operator, Pattern, Provenance, Statement, Test, Text, Value, Wfn,
};
use std::alloc::Global;

fn of_fs(alloc: Global, fs: &[u8]) -> Result<Wfn, Memory> {
    match unbind_fs(alloc, fs) {
        Ok(name) => Ok(name),
        Err(_) => Err(Memory),
    }
}

// The name `cpe:/a`. Its formatted string has 29 bytes, and so does that of `cpe:/a:v:p:1`.
fn a_part(alloc: Global) -> Result<Wfn, Memory> {
    of_fs(alloc, b"cpe:2.3:a:*:*:*:*:*:*:*:*:*:*")
}

fn a_product(alloc: Global) -> Result<Wfn, Memory> {
    of_fs(alloc, b"cpe:2.3:a:v:p:1:*:*:*:*:*:*:*")
}

// Drops a row or a part of a row. Returns the result that was found for it.
fn found<T: Drop>(is_so: bool, row: T) -> bool {
    drop(row);
    is_so
}

// ---- names

fn name_weighs(name: &Wfn, before: u64, after: u64) -> bool {
    with_name(before, name) == after
}

fn part_weighs(alloc: Global, before: u64, after: u64) -> bool {
    match a_part(alloc) {
        Ok(name) => found(name_weighs(&name, before, after), name),
        Err(_) => false,
    }
}

#[test]
fn a_name_counts_by_its_formatted_string(rt: HostRuntime) {
    assert!(rt; part_weighs(rt.alloc(), 0, 61));
    assert!(rt; part_weighs(rt.alloc(), 1000, 1061));
}

#[test]
fn a_weight_stops_at_the_largest_number(rt: HostRuntime) {
    assert!(rt; part_weighs(rt.alloc(), u64::MAX - 62, u64::MAX - 1));
    assert!(rt; part_weighs(rt.alloc(), u64::MAX - 61, u64::MAX));
    assert!(rt; part_weighs(rt.alloc(), u64::MAX - 31, u64::MAX));
    assert!(rt; part_weighs(rt.alloc(), u64::MAX, u64::MAX));
}

// A name that is ANY except for the vendor. The vendor's text is one letter after `marks` question marks.
fn of_marks(alloc: Global, marks: u32) -> Wfn {
    let mut name = Wfn::any();
    if let Ok(text) = Pattern::new(alloc, Edge::Marks(marks), b"v", Edge::None) {
        let _ = name.set(Attribute::Vendor, Value::Text(text));
    }
    name
}

fn marks_weigh(alloc: Global, marks: u32, after: u64) -> bool {
    let name = of_marks(alloc, marks);
    found(name_weighs(&name, 0, after), name)
}

#[test]
fn each_mark_counts(rt: HostRuntime) {
    assert!(rt; marks_weigh(rt.alloc(), 1, 62));
    assert!(rt; marks_weigh(rt.alloc(), 1000, 1061));
    assert!(rt; marks_weigh(rt.alloc(), u32::MAX, 4_294_967_356));
}

// ---- entries

fn a_note(alloc: Global, comment: &str) -> Result<Note, Memory> {
    match Date::new(b"2024-01-02") {
        Some(date) => Ok(Note {
            kind: NoteKind::Deprecation,
            date,
            comment: Text::new(alloc, comment)?,
        }),
        None => Err(Memory),
    }
}

fn put_part(alloc: Global, names: &mut List<Wfn>) -> Result<(), Memory> {
    names.push(a_part(alloc)?)
}

fn put_product(alloc: Global, names: &mut List<Wfn>) -> Result<(), Memory> {
    names.push(a_product(alloc)?)
}

fn a_deprecation(alloc: Global) -> Result<Deprecation, Memory> {
    let mut successors = List::new(alloc);
    put_part(alloc, &mut successors)?;
    put_product(alloc, &mut successors)?;
    Ok(Deprecation {
        kind: Kind::AdditionalInformation,
        successors,
    })
}

fn put_note(alloc: Global, notes: &mut List<Note>, comment: &str) -> Result<(), Memory> {
    notes.push(a_note(alloc, comment)?)
}

fn two_notes(alloc: Global) -> Result<List<Note>, Memory> {
    let mut notes = List::new(alloc);
    put_note(alloc, &mut notes, "")?;
    put_note(alloc, &mut notes, "Träger")?;
    Ok(notes)
}

fn a_provenance(alloc: Global) -> Result<Provenance, Memory> {
    Ok(Provenance {
        submitter: Text::new(alloc, "acme")?,
        authority: Text::new(alloc, "nvd")?,
        notes: two_notes(alloc)?,
    })
}

fn an_entry_of(
    alloc: Global,
    provenance: Provenance,
    deprecation: Option<Deprecation>,
) -> Result<Entry, Memory> {
    let title = Text::new(alloc, "P")?;
    let name = a_product(alloc)?;
    Ok(Entry {
        name,
        title,
        provenance,
        deprecation,
    })
}

fn an_entry(alloc: Global) -> Result<Entry, Memory> {
    let provenance = a_provenance(alloc)?;
    let deprecation = a_deprecation(alloc)?;
    an_entry_of(alloc, provenance, Some(deprecation))
}

fn weight_of(entry: &Entry) -> u64 {
    let active = with_active_entry(0, &entry.name, &entry.title, &entry.provenance);
    match &entry.deprecation {
        Some(deprecation) => with_deprecation(active, deprecation),
        None => active,
    }
}

fn entry_weighs(alloc: Global, weight: u64) -> bool {
    match an_entry(alloc) {
        Ok(entry) => found(weight_of(&entry) == weight, entry),
        Err(_) => false,
    }
}

// 62 for the name and title, 7 for the submitter, 42 and 49 for the notes, and 61 for each successor.
#[test]
fn an_entry_counts_all_that_it_has(rt: HostRuntime) {
    assert!(rt; entry_weighs(rt.alloc(), 282));
}

// ---- statements

fn a_key(alloc: Global) -> Result<CheckKey, Memory> {
    Ok(CheckKey {
        system: Text::new(alloc, "oval")?,
        href: Text::new(alloc, "nova.xml")?,
        id: Text::new(alloc, "def:7")?,
    })
}

fn a_logical_test(of: List<Test>) -> Test {
    Test::Logic {
        operator: Operator::And,
        negate: false,
        of,
    }
}

fn put(of: &mut List<Test>, test: Test) -> Result<(), Memory> {
    of.push(test)
}

fn a_fact(alloc: Global) -> Result<Test, Memory> {
    Ok(Test::Fact(BoxedName::new(alloc, a_part(alloc)?)?))
}

fn of_fact(alloc: Global) -> Result<List<Test>, Memory> {
    let mut of = List::new(alloc);
    put(&mut of, a_fact(alloc)?)?;
    Ok(of)
}

fn put_check(alloc: Global, of: &mut List<Test>) -> Result<(), Memory> {
    put(of, Test::Check(a_key(alloc)?))
}

fn put_logical_test(alloc: Global, of: &mut List<Test>) -> Result<(), Memory> {
    put(of, a_logical_test(of_fact(alloc)?))
}

// A list of a fact, a check, and a logical test of a fact.
fn nested(alloc: Global) -> Result<List<Test>, Memory> {
    let mut of = of_fact(alloc)?;
    put_check(alloc, &mut of)?;
    put_logical_test(alloc, &mut of)?;
    Ok(of)
}

fn a_statement(alloc: Global) -> Result<Statement, Memory> {
    Ok(Statement {
        id: Text::new(alloc, "adv-1")?,
        title: Text::new(alloc, "T")?,
        mode: Mode::Plain,
        test: a_logical_test(nested(alloc)?),
    })
}

fn statement_weighs(alloc: Global, weight: u64) -> bool {
    match a_statement(alloc) {
        Ok(statement) => found(with_statement(0, &statement) == weight, statement),
        Err(_) => false,
    }
}

// 38 for the statement itself, and 32 for its logical test. In this test: 61 for each of two facts, 32 for the inner
// logical test, and 49 for the check.
#[test]
fn a_statement_counts_all_that_it_has(rt: HostRuntime) {
    assert!(rt; statement_weighs(rt.alloc(), 273));
}

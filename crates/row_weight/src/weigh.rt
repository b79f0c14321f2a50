// Functions that add the weight of a row or part to a given weight. The largest number is that of 64 bits.
ghost use Rattle.std.specs.Prelude.{◌≡◌, ◌+◌, None, length, map};
ghost use Rattle.cpe_rows.specs.Weight.{weighs, name_weight, note_weight, deprecation_weight, entry_weight, key_weight, test_weight, statement_weight, total_weight};
ghost use Rattle.row_weight.specs.Capped.{capped};

use cpe_fs::fs_len;
use cpe_rows::{CheckKey, Date, Deprecation, Note, Provenance, Statement, Test, Text, Wfn};

// Returns `weight` plus the weight of a row or part without texts.
fn with_one(weight: u64) -> u64
    ensures { result ≡ capped (weight + weighs 0) }
{
    weight.saturating_add(32)
}

fn with_text(weight: u64, text: &Text) -> u64
    ensures { result ≡ capped (weight + length text.now) }
{
    weight.saturating_add(text.as_str().len() as u64)
}

/// Returns `weight` plus the weight of a name, or the largest number if the sum is greater. Allocates: no.
pub fn with_name(weight: u64, name: &Wfn) -> u64
    ensures { result ≡ capped (weight + name_weight name.now) }
{
    let bytes = u64::try_from(fs_len(name)).unwrap_or(u64::MAX);
    with_one(weight).saturating_add(bytes)
}

/// Returns `weight` plus the weight of a note with this date and comment, or the largest number if the sum is greater.
/// Allocates: no.
pub fn with_note(weight: u64, date: Date, comment: &Text) -> u64
    ensures { result ≡ capped (weight + weighs (length date + length comment.now)) }
{
    with_text(with_one(weight), comment).saturating_add(date.bytes().len() as u64)
}

/// Returns `weight` plus the weight of a deprecation, or the largest number if the sum is greater. Allocates: no.
pub fn with_deprecation(weight: u64, deprecation: &Deprecation) -> u64
    ensures { result ≡ capped (weight + deprecation_weight deprecation.now) }
{
    let mut sum = weight;
    for name in deprecation.successors.as_slice() {
        sum = with_name(sum, name);
    }
    sum
}

/// Returns `weight` plus the weight of this key, or the largest number if the sum is greater. The key is that of a
/// check in a test, or of a kept result. Allocates: no.
pub fn with_key(weight: u64, key: &CheckKey) -> u64
    ensures { result ≡ capped (weight + key_weight key.now) }
{
    let system = with_text(with_one(weight), &key.system);
    with_text(with_text(system, &key.href), &key.id)
}

// `weight` plus the weight of a test, or the largest number if the sum is greater.
fn with_test(weight: u64, test: &Test) -> u64
    ensures { result ≡ capped (weight + test_weight test.now) }
{
    match test {
        Test::Logic { of, .. } => {
            let mut sum = with_one(weight);
            for child in of.as_slice() {
                sum = with_test(sum, child);
            }
            sum
        }
        Test::Fact(name) => with_name(weight, name.as_name()),
        Test::Check(key) => with_key(weight, key),
    }
}

/// Returns `weight` plus the weight of a statement, or the largest number if the sum is greater. Allocates: no.
pub fn with_statement(weight: u64, statement: &Statement) -> u64
    ensures { result ≡ capped (weight + statement_weight statement.now) }
{
    let texts = with_text(with_text(with_one(weight), &statement.id), &statement.title);
    with_test(texts, &statement.test)
}

fn with_notes(weight: u64, notes: &[Note]) -> u64
    ensures { result ≡ capped (weight + total_weight (map note_weight notes.now)) }
{
    let mut sum = weight;
    for note in notes {
        sum = with_note(sum, note.date, &note.comment);
    }
    sum
}

/// Returns `weight` plus the weight of an active entry with these parts, or the largest number if the sum is greater.
/// Allocates: no.
pub fn with_active_entry(weight: u64, name: &Wfn, title: &Text, provenance: &Provenance) -> u64
    ensures { result ≡ capped (weight + entry_weight (record { name = name.now; title = title.now; provenance = provenance.now; deprecation = None })) }
{
    let titled = with_text(with_name(weight, name), title);
    let submitter = with_text(titled, &provenance.submitter);
    let authority = with_text(submitter, &provenance.authority);
    with_notes(authority, provenance.notes.as_slice())
}

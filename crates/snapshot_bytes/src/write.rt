// Writes rows as bytes, one after the other. Each function appends to the bytes of a buffer, and drops the buffer if
// memory runs out.
ghost use Rattle.std.specs.Prelude.{◌≡◌, ◌++◌, ◌∷◌, [], IfOk, length, map, flat_map};
ghost use Rattle.snapshot_bytes.specs.Parts.{number, text, name, list};
ghost use Rattle.snapshot_bytes.specs.Snapshot.{note_byte, kind_byte, mode_byte, operator_byte, flag_byte, truth_byte, mark, placed_deprecation, note_row, deprecation_part, entry_row, key_part, test_part, statement_row, result_row};
ghost use Rattle.snapshot_bytes.specs.declared.rows.PlacedEntry.{PlacedEntry};
ghost use Rattle.snapshot_bytes.specs.declared.rows.KeptResult.{KeptResult};

use cpe_fs::{append_fs, fs_len};
use cpe_rows::{
    CheckKey, Kind, Memory, Mode, Note, NoteKind, Operator, Provenance, Statement, Test, Text,
    Truth, Wfn,
};

// ---- parts

fn push_byte(bytes: Vec<u8>, byte: u8) -> Result<Vec<u8>, Memory>
    ensures { IfOk result (λ b. b.items ≡ bytes.items ++ byte ∷ []) }
{
    let mut out = bytes;
    out.push(byte)?;
    Ok(out)
}

fn push_bytes(bytes: Vec<u8>, more: &[u8]) -> Result<Vec<u8>, Memory>
    ensures { IfOk result (λ b. b.items ≡ bytes.items ++ more.now) }
{
    let mut out = bytes;
    out.extend_from_slice(more)?;
    Ok(out)
}

// Appends the four bytes of a number, which is taken modulo 2^32.
#[tactic(auto, using(crate::proofs::WriteLemmas::number_of_rest))]
fn push_number(bytes: Vec<u8>, value: u128) -> Result<Vec<u8>, Memory>
    ensures { IfOk result (λ b. b.items ≡ bytes.items ++ number value) }
{
    let rest = (value % 4_294_967_296) as u32;
    push_bytes(bytes, &rest.to_be_bytes())
}

fn push_text(bytes: Vec<u8>, said: &Text) -> Result<Vec<u8>, Memory>
    ensures { IfOk result (λ b. b.items ≡ bytes.items ++ text said.now) }
{
    let said = said.as_str().as_bytes();
    push_bytes(push_number(bytes, said.len() as u128)?, said)
}

/// The bytes, followed by a name.
///
/// # Errors
/// Only if memory runs out; the bytes are then dropped.
pub fn push_name(bytes: Vec<u8>, put: &Wfn) -> Result<Vec<u8>, Memory>
    ensures { IfOk result (λ b. b.items ≡ bytes.items ++ name put.now) }
{
    append_fs(push_number(bytes, fs_len(put))?, put)
}

// ---- bytes of kinds

fn note_byte(kind: NoteKind) -> u8
    ensures { result ≡ note_byte kind }
{
    match kind {
        NoteKind::OriginalRecord => 0,
        NoteKind::AuthorityChange => 1,
        NoteKind::Deprecation => 2,
        NoteKind::DeprecationModification => 3,
    }
}

fn kind_byte(kind: Kind) -> u8
    ensures { result ≡ kind_byte kind }
{
    match kind {
        Kind::NameCorrection => 1,
        Kind::NameRemoval => 2,
        Kind::AdditionalInformation => 3,
    }
}

fn mode_byte(mode: Mode) -> u8
    ensures { result ≡ mode_byte mode }
{
    match mode {
        Mode::Plain => 0,
        Mode::Follow => 1,
    }
}

fn operator_byte(operator: Operator) -> u8
    ensures { result ≡ operator_byte operator }
{
    match operator {
        Operator::And => 0,
        Operator::Or => 1,
    }
}

fn flag_byte(flag: bool) -> u8
    ensures { result ≡ flag_byte flag }
{
    if flag { 1 } else { 0 }
}

fn truth_byte(truth: Truth) -> u8
    ensures { result ≡ truth_byte truth }
{
    match truth {
        Truth::True => 0,
        Truth::False => 1,
        Truth::Error => 2,
        Truth::Unknown => 3,
    }
}

// ---- entries

fn push_note(bytes: Vec<u8>, note: &Note) -> Result<Vec<u8>, Memory>
    ensures { IfOk result (λ b. b.items ≡ bytes.items ++ note_row note.now) }
{
    let out = push_byte(bytes, note_byte(note.kind))?;
    let out = push_bytes(out, note.date.bytes())?;
    push_text(out, &note.comment)
}

fn push_notes(bytes: Vec<u8>, notes: &[Note]) -> Result<Vec<u8>, Memory>
    ensures { IfOk result (λ b. b.items ≡ bytes.items ++ list note_row notes.now) }
{
    let mut out = push_number(bytes, notes.len() as u128)?;
    for note in notes {
        out = push_note(out, note)?;
    }
    Ok(out)
}

fn push_places(bytes: Vec<u8>, places: &[u32]) -> Result<Vec<u8>, Memory>
    ensures { IfOk result (λ b. b.items ≡ bytes.items ++ list number places.now) }
{
    let mut out = push_number(bytes, places.len() as u128)?;
    for place in places {
        out = push_number(out, u128::from(*place))?;
    }
    Ok(out)
}

fn push_deprecation(
    bytes: Vec<u8>,
    kind: Option<Kind>,
    successors: &[u32],
) -> Result<Vec<u8>, Memory>
    ensures { IfOk result (λ b. b.items ≡ bytes.items ++ deprecation_part (placed_deprecation kind successors.now)) }
{
    match kind {
        Some(kind) => push_places(push_byte(bytes, kind_byte(kind))?, successors),
        None => push_byte(bytes, 0),
    }
}

fn push_provenance(bytes: Vec<u8>, provenance: &Provenance) -> Result<Vec<u8>, Memory>
    ensures { IfOk result (λ b. b.items ≡ bytes.items ++ (text provenance.now.submitter ++ (text provenance.now.authority ++ list note_row provenance.now.notes))) }
{
    let out = push_text(bytes, &provenance.submitter)?;
    let out = push_text(out, &provenance.authority)?;
    push_notes(out, provenance.notes.as_slice())
}

/// The bytes, followed by an entry: its parts, and its deprecation, if there is one, with the kind and the places of
/// the successors.
///
/// # Errors
/// Only if memory runs out; the bytes are then dropped.
pub fn push_entry(
    bytes: Vec<u8>,
    put: &Wfn,
    title: &Text,
    provenance: &Provenance,
    kind: Option<Kind>,
    successors: &[u32],
) -> Result<Vec<u8>, Memory>
    ensures { IfOk result (λ b. b.items ≡ bytes.items ++ entry_row (record { name = put.now; title = title.now; provenance = provenance.now; deprecation = placed_deprecation kind successors.now })) }
{
    let out = push_name(bytes, put)?;
    let out = push_text(out, title)?;
    let out = push_provenance(out, provenance)?;
    push_deprecation(out, kind, successors)
}

// ---- statements

fn push_key(bytes: Vec<u8>, key: &CheckKey) -> Result<Vec<u8>, Memory>
    ensures { IfOk result (λ b. b.items ≡ bytes.items ++ key_part key.now) }
{
    let out = push_text(bytes, &key.system)?;
    let out = push_text(out, &key.href)?;
    push_text(out, &key.id)
}

// Appends the beginning of a logical test, before its children.
fn push_logic(
    bytes: Vec<u8>,
    operator: Operator,
    negate: bool,
    count: usize,
) -> Result<Vec<u8>, Memory>
    ensures { IfOk result (λ b. b.items ≡ bytes.items ++ 0 ∷ operator_byte operator ∷ flag_byte negate ∷ number count) }
{
    let out = push_byte(bytes, 0)?;
    let out = push_byte(out, operator_byte(operator))?;
    let out = push_byte(out, flag_byte(negate))?;
    push_number(out, count as u128)
}

fn push_test(bytes: Vec<u8>, test: &Test) -> Result<Vec<u8>, Memory>
    ensures { IfOk result (λ b. b.items ≡ bytes.items ++ test_part test.now) }
{
    match test {
        Test::Fact(name) => push_name(push_byte(bytes, 1)?, name.as_name()),
        Test::Check(key) => push_key(push_byte(bytes, 2)?, key),
        Test::Logic {
            operator,
            negate,
            of,
        } => {
            let mut out = push_logic(bytes, *operator, *negate, of.len())?;
            for child in of.as_slice() {
                out = push_test(out, child)?;
            }
            Ok(out)
        }
    }
}

/// The bytes, followed by a statement.
///
/// # Errors
/// Only if memory runs out; the bytes are then dropped.
pub fn push_statement(bytes: Vec<u8>, statement: &Statement) -> Result<Vec<u8>, Memory>
    ensures { IfOk result (λ b. b.items ≡ bytes.items ++ statement_row statement.now) }
{
    let out = push_text(bytes, &statement.id)?;
    let out = push_text(out, &statement.title)?;
    let out = push_byte(out, mode_byte(statement.mode))?;
    push_test(out, &statement.test)
}

/// The bytes, followed by a check's key and its kept result.
///
/// # Errors
/// Only if memory runs out; the bytes are then dropped.
pub fn push_result(bytes: Vec<u8>, key: &CheckKey, truth: Truth) -> Result<Vec<u8>, Memory>
    ensures { IfOk result (λ b. b.items ≡ bytes.items ++ result_row (record { key = key.now; result = truth })) }
{
    push_byte(push_key(bytes, key)?, truth_byte(truth))
}

// ---- the head of a snapshot

/// The bytes, followed by the head of a snapshot: the mark, and the numbers of entries, items, statements and kept
/// results.
///
/// # Errors
/// Only if memory runs out; the bytes are then dropped.
pub fn push_head(
    bytes: Vec<u8>,
    entries: usize,
    items: usize,
    statements: usize,
    results: usize,
) -> Result<Vec<u8>, Memory>
    ensures { IfOk result (λ b. b.items ≡ bytes.items ++ (mark ++ (number entries ++ (number items ++ (number statements ++ number results))))) }
{
    let out = push_bytes(bytes, b"CPESNAP1")?;
    let out = push_number(out, entries as u128)?;
    let out = push_number(out, items as u128)?;
    let out = push_number(out, statements as u128)?;
    push_number(out, results as u128)
}

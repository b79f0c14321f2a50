// The spelling of texts, character by character.
ghost use Rattle.std.specs.Prelude.{◌≡◌, OnOk, replicate, ◌++◌, ◌-◌, take, length, flat_map};
ghost use Rattle.cpe_values.specs.Parts.{is_character};
ghost use Rattle.cpe_values.specs.Skipping.{skip_while};
ghost use Rattle.cpe_values.specs.Spelling.{is_bare, style_character, edge_text, spelling, is_letter, is_digit};

use crate::bare::{skip_bare, skip_word};
use crate::value::{Edge, Pattern};
use out_of_memory::Memory;

/// The style in which a text is spelled.
#[derive(Clone, Copy, Debug, PartialEq, Eq)]
pub enum Style {
    /// In a well-formed name (NIST IR 7695, 5.3): each character of a body has a backslash before it, except letters,
    /// digits and `_`.
    Wfn,
    /// In a formatted string (NIST IR 7695, 6.2): each character of a body has a backslash before it, except letters,
    /// digits, `_`, `.` and `-`.
    Formatted,
}

// Whether a byte is one of the 94 printable ASCII characters, `!` to `~`.
pub(crate) fn is_printable_byte(byte: u8) -> bool
    ensures { result ≡ is_character byte }
{
    matches!(byte, b'!'..=b'~')
}

/// Whether a byte is an ASCII letter.
pub fn is_letter_byte(byte: u8) -> bool
    ensures { result ≡ is_letter byte }
{
    matches!(byte, b'A'..=b'Z' | b'a'..=b'z')
}

/// Whether a byte is an ASCII digit.
pub fn is_digit_byte(byte: u8) -> bool
    ensures { result ≡ is_digit byte }
{
    matches!(byte, b'0'..=b'9')
}

// For each byte: 1 if it needs no backslash in either style, 2 if it needs none in a formatted string alone, else 0. A
// table is used so that no branch depends on the byte.
#[rattlefmt::skip]
const BARE: [u8; 256] = [
    0, 0, 0, 0, 0, 0, 0, 0, 0, 0, 0, 0, 0, 0, 0, 0, 0, 0, 0, 0, 0, 0, 0, 0, 0, 0, 0, 0, 0, 0, 0, 0,
    0, 0, 0, 0, 0, 0, 0, 0, 0, 0, 0, 0, 0, 2, 2, 0, 1, 1, 1, 1, 1, 1, 1, 1, 1, 1, 0, 0, 0, 0, 0, 0,
    0, 1, 1, 1, 1, 1, 1, 1, 1, 1, 1, 1, 1, 1, 1, 1, 1, 1, 1, 1, 1, 1, 1, 1, 1, 1, 1, 0, 0, 0, 0, 1,
    0, 1, 1, 1, 1, 1, 1, 1, 1, 1, 1, 1, 1, 1, 1, 1, 1, 1, 1, 1, 1, 1, 1, 1, 1, 1, 1, 0, 0, 0, 0, 0,
    0, 0, 0, 0, 0, 0, 0, 0, 0, 0, 0, 0, 0, 0, 0, 0, 0, 0, 0, 0, 0, 0, 0, 0, 0, 0, 0, 0, 0, 0, 0, 0,
    0, 0, 0, 0, 0, 0, 0, 0, 0, 0, 0, 0, 0, 0, 0, 0, 0, 0, 0, 0, 0, 0, 0, 0, 0, 0, 0, 0, 0, 0, 0, 0,
    0, 0, 0, 0, 0, 0, 0, 0, 0, 0, 0, 0, 0, 0, 0, 0, 0, 0, 0, 0, 0, 0, 0, 0, 0, 0, 0, 0, 0, 0, 0, 0,
    0, 0, 0, 0, 0, 0, 0, 0, 0, 0, 0, 0, 0, 0, 0, 0, 0, 0, 0, 0, 0, 0, 0, 0, 0, 0, 0, 0, 0, 0, 0, 0,
];

/// Whether a character of a body is spelled without a backslash.
#[tactic(auto, using(crate::proofs::BareBytes::bare_in_both, crate::proofs::BareBytes::bare_in_one))]
pub fn is_bare_byte(style: Style, byte: u8) -> bool
    ensures { result ≡ is_bare style byte }
{
    let kind = BARE[usize::from(byte)];
    match style {
        Style::Wfn => kind == 1,
        Style::Formatted => kind != 0,
    }
}

#[tactic(auto, using(crate::proofs::Kept::keeping))]
fn push_marks(out: &mut Vec<u8>, marks: u32) -> Result<(), Memory>
    ensures spelled { OnOk result (out.new.items ≡ out.old.items ++ replicate marks 63) }
    ensures kept { take (length out.old.items) out.new.items ≡ out.old.items }
{
    for _ in 0..marks {
        out.push(b'?')?;
    }
    Ok(())
}

#[tactic(auto, using(crate::proofs::Kept::keeping))]
fn push_edge(out: &mut Vec<u8>, edge: Edge) -> Result<(), Memory>
    ensures spelled { OnOk result (out.new.items ≡ out.old.items ++ edge_text edge) }
    ensures kept { take (length out.old.items) out.new.items ≡ out.old.items }
{
    match edge {
        Edge::None => Ok(()),
        Edge::Star => {
            out.push(b'*')?;
            Ok(())
        }
        Edge::Marks(marks) => push_marks(out, marks),
    }
}

#[tactic(auto, using(crate::proofs::Kept::keeping))]
fn push_character(out: &mut Vec<u8>, style: Style, byte: u8) -> Result<(), Memory>
    ensures spelled { OnOk result (out.new.items ≡ out.old.items ++ style_character style byte) }
    ensures kept { take (length out.old.items) out.new.items ≡ out.old.items }
{
    if is_bare_byte(style, byte) {
        out.push(byte)?;
        return Ok(());
    }
    out.push(b'\\')?;
    out.push(byte)?;
    Ok(())
}

#[tactic(auto, using(crate::proofs::Kept::keeping))]
fn push_characters(out: &mut Vec<u8>, style: Style, body: &[u8]) -> Result<(), Memory>
    ensures spelled { OnOk result (out.new.items ≡ out.old.items ++ flat_map (style_character style) body.now) }
    ensures kept { take (length out.old.items) out.new.items ≡ out.old.items }
{
    for byte in body {
        push_character(out, style, *byte)?;
    }
    Ok(())
}

// The part of a body after its first characters without a backslash.
fn behind_bare(style: Style, body: &[u8]) -> &[u8]
    ensures { result.now ≡ skip_while (is_bare style) body.now }
{
    match style {
        Style::Wfn => skip_word(body),
        Style::Formatted => skip_bare(body),
    }
}

// The bytes of `all` before its end `rest`.
fn before<'a>(all: &'a [u8], rest: &[u8]) -> &'a [u8]
    ensures { result.now ≡ take (length all.now - length rest.now) all.now }
{
    &all[..all.len().saturating_sub(rest.len())]
}

// Appends bytes unchanged.
#[tactic(auto, using(crate::proofs::Kept::keeping))]
fn push_bytes(out: &mut Vec<u8>, bytes: &[u8]) -> Result<(), Memory>
    ensures put { OnOk result (out.new.items ≡ out.old.items ++ bytes.now) }
    ensures kept { take (length out.old.items) out.new.items ≡ out.old.items }
{
    out.extend_from_slice(bytes)?;
    Ok(())
}

// Appends the spelling of a body. Most bodies need no backslash: their characters are appended all at once.
fn push_body(out: &mut Vec<u8>, style: Style, body: &[u8]) -> Result<(), Memory>
    ensures spelled { OnOk result (out.new.items ≡ out.old.items ++ flat_map (style_character style) body.now) }
    ensures kept { take (length out.old.items) out.new.items ≡ out.old.items }
{
    let rest = behind_bare(style, body);
    push_bytes(out, before(body, rest))?;
    push_characters(out, style, rest)
}

/// Appends the spelling of a text to `out`: its lead, its body character by character, and its trail. If memory runs
/// out, a prefix of the spelling may have been appended.
#[tactic(auto, using(crate::proofs::Kept::keeping))]
pub fn push_spelling(out: &mut Vec<u8>, style: Style, text: &Pattern) -> Result<(), Memory>
    ensures spelled { OnOk result (out.new.items ≡ out.old.items ++ spelling style text.now) }

    // The earlier bytes of `out` are unchanged, whatever the result.
    ensures kept { take (length out.old.items) out.new.items ≡ out.old.items }
{
    push_edge(out, text.lead())?;
    push_body(out, style, text.stem())?;
    push_edge(out, text.trail())
}

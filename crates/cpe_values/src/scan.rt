// Scanners: where the lead, the body and the trail of a spelled text end. Nothing here allocates memory.
//
// Each scanner takes a prefix of the bytes, and returns the bytes after this prefix. If no such text can continue at
// some byte, it returns the number of bytes from there on. The scanners are inlined, so that the compiler knows the
// style if a caller names it.
ghost use Rattle.std.specs.Prelude.{◌≡◌};
ghost use Rattle.name_grammar.specs.Scanners.{IsScan, scan_one};
ghost use Rattle.cpe_values.specs.Spelling.{is_bare};
ghost use Rattle.cpe_values.specs.Skipping.{skip_while};
ghost use Rattle.cpe_values.specs.Scanning.{is_quoted, begins_with_backslash, starts_body, marks_end, edge_end, character_end, body_end, stem_end};

use crate::bare::skip_word;
use crate::spelling::{Style, is_bare_byte, is_printable_byte};

// Takes at most as many question marks as a `u32` counts.
#[inline(always)]
#[tactic(auto, unfolding(crate::specs::Scanning::marks_end, name_grammar::specs::Scanners::up_to))]
fn scan_marks(bytes: &[u8]) -> Result<&[u8], usize>
    ensures { IsScan (λ rest. rest.now) result (marks_end bytes.now) }
{
    let mut more = u32::MAX;
    let mut rest = bytes;
    while let [b'?', tail @ ..] = rest {
        if more == 0 {
            return Err(rest.len());
        }
        more -= 1;
        rest = tail;
    }
    Ok(rest)
}

/// Takes a lead or a trail, which may be empty, and returns the bytes after it (NIST IR 7695, 5.3). A lead or a trail
/// is an asterisk, or at most 4,294,967,295 question marks.
///
/// # Errors
/// The number of bytes left at one question mark more.
#[inline(always)]
#[tactic(auto, unfolding(crate::specs::Scanning::edge_end))]
pub fn scan_edge(bytes: &[u8]) -> Result<&[u8], usize>
    ensures { IsScan (λ rest. rest.now) result (edge_end bytes.now) }
{
    match bytes {
        [b'*', rest @ ..] => Ok(rest),
        _ => scan_marks(bytes),
    }
}

#[inline(always)]
fn is_quoted(style: Style, byte: u8) -> bool
    ensures { result ≡ is_quoted style byte }
{
    is_printable_byte(byte) && !is_bare_byte(style, byte)
}

#[inline(always)]
fn scan_quoted(style: Style, bytes: &[u8]) -> Result<&[u8], usize>
    ensures { IsScan (λ rest. rest.now) result (scan_one (is_quoted style) bytes.now) }
{
    match bytes {
        [quoted, rest @ ..] if is_quoted(style, *quoted) => Ok(rest),
        _ => Err(bytes.len()),
    }
}

#[inline(always)]
#[tactic(auto, unfolding(crate::specs::Scanning::character_end))]
fn scan_character(style: Style, bytes: &[u8]) -> Result<&[u8], usize>
    ensures { IsScan (λ rest. rest.now) result (character_end style bytes.now) }
{
    match bytes {
        [b'\\', rest @ ..] => scan_quoted(style, rest),
        [bare, rest @ ..] if is_bare_byte(style, *bare) => Ok(rest),
        _ => Err(bytes.len()),
    }
}

#[inline(always)]
fn is_at_backslash(bytes: &[u8]) -> bool
    ensures { result ≡ begins_with_backslash bytes.now }
{
    matches!(bytes, [b'\\', ..])
}

#[inline(always)]
fn skip_bare(style: Style, bytes: &[u8]) -> &[u8]
    ensures { result.now ≡ skip_while (is_bare style) bytes.now }
{
    match style {
        Style::Wfn => skip_word(bytes),
        Style::Formatted => crate::skip_bare(bytes),
    }
}

// Takes the characters of a body. Most characters have no backslash, and such characters are skipped sixteen at a time.
#[inline(always)]
#[tactic(auto, using(crate::proofs::Bodies::character_stop))]
fn scan_body(style: Style, bytes: &[u8]) -> Result<&[u8], usize>
    ensures { IsScan (λ rest. rest.now) result (body_end style bytes.now) }
{
    let mut rest = skip_bare(style, bytes);
    while is_at_backslash(rest) {
        rest = skip_bare(style, scan_character(style, rest)?);
    }
    Ok(rest)
}

/// Whether a character of a body may begin with this byte. Such a byte is a backslash, or a character that needs no
/// backslash (NIST IR 7695, 5.3 and 6.2).
#[inline(always)]
pub fn starts_body(style: Style, byte: u8) -> bool
    ensures { result ≡ starts_body style byte }
{
    is_bare_byte(style, byte) || byte == b'\\'
}

/// Takes a body of at least one character, and a trail. Returns the bytes after the trail (NIST IR 7695, 5.3 and 6.2).
///
/// # Errors
/// The number of bytes left at the byte at which no such text can continue.
#[inline(always)]
#[tactic(auto, unfolding(crate::specs::Scanning::stem_end))]
pub fn scan_stem(style: Style, bytes: &[u8]) -> Result<&[u8], usize>
    ensures { IsScan (λ rest. rest.now) result (stem_end style bytes.now) }
{
    let rest = scan_character(style, bytes)?;
    let rest = scan_body(style, rest)?;
    scan_edge(rest)
}

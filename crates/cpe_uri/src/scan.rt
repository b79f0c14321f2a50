// Finds the pieces of a URI that spell the values of its name (NIST IR 7695, 6.1). Nothing here allocates.
ghost use Rattle.std.specs.Prelude.{◌≡◌, ◌-◌, ◌==◌, List, ℕ, false, true, length, take, drop, [], ◌∷◌, codes, Ok, Err, IfOk, IfErr};
ghost use Rattle.std.specs.Char.{to_ascii_lowercase};
ghost use Rattle.name_grammar.specs.Place.{StopsAt};
ghost use Rattle.name_grammar.specs.Scanners.{IsScan, scan_one};
ghost use Rattle.cpe_name.specs.Spans.{texts};
ghost use Rattle.cpe_uri.specs.Grammar.{begins_with_tilde, IsUri};
ghost use Rattle.cpe_uri.specs.Languages.{part_end, language_end};
ghost use Rattle.cpe_uri.specs.TextMachine.{text_end};
ghost use Rattle.cpe_uri.specs.Editions.{edition_texts};
ghost use Rattle.cpe_uri.specs.Scanning.{field_end, packed_end, edition_end, later_end, prefix_end, all_end, whole_end};
ghost use Rattle.cpe_uri.specs.Spans.{AreUriComponents};
ghost use Rattle.cpe_uri.specs.Pieces.{prefix_before, piece, begins_with_colon, behind_colon, field_pieces, edition_pieces, all_pieces};

use crate::language::{scan_language, scan_part};
use crate::text::scan_text;
use cpe_name::Written;
use name_grammar::{prefix_of, scan_byte};

// The pieces in the component of the edition. A packed component has five pieces. Otherwise the edition has a piece,
// and the four other pieces are empty.
#[derive(Clone, Copy)]
pub(crate) struct Editions<'a> {
    pub edition: &'a [u8],
    pub sw_edition: &'a [u8],
    pub target_sw: &'a [u8],
    pub target_hw: &'a [u8],
    pub other: &'a [u8],
}

fn is_at_colon(bytes: &[u8]) -> bool
    ensures { result ≡ begins_with_colon bytes.now }
{
    matches!(bytes, [b':', ..])
}

fn is_at_tilde(bytes: &[u8]) -> bool
    ensures { result ≡ begins_with_tilde bytes.now }
{
    matches!(bytes, [b'~', ..])
}

fn part_piece(bytes: &[u8]) -> Result<(&[u8], &[u8]), usize>
    ensures scans { IsScan (λ x. x.1.now) result (part_end bytes.now) }
    ensures found { IfOk result (λ x. x.0.now ≡ prefix_before bytes.now x.1.now) }
{
    let rest = scan_part(bytes)?;
    Ok((prefix_of(bytes, rest), rest))
}

#[inline(always)]
fn text_piece(packed: bool, bytes: &[u8]) -> Result<(&[u8], &[u8]), usize>
    ensures scans { IsScan (λ x. x.1.now) result (text_end packed bytes.now) }
    ensures found { IfOk result (λ x. x.0.now ≡ prefix_before bytes.now x.1.now) }
{
    let rest = scan_text(packed, bytes)?;
    Ok((prefix_of(bytes, rest), rest))
}

fn language_piece(bytes: &[u8]) -> Result<(&[u8], &[u8]), usize>
    ensures scans { IsScan (λ x. x.1.now) result (language_end bytes.now) }
    ensures found { IfOk result (λ x. x.0.now ≡ prefix_before bytes.now x.1.now) }
{
    let rest = scan_language(bytes)?;
    Ok((prefix_of(bytes, rest), rest))
}

#[tactic(auto, unfolding(crate::specs::Scanning::field_end))]
fn field_piece(bytes: &[u8]) -> Result<(&[u8], &[u8]), usize>
    ensures scans { IsScan (λ x. x.1.now) result (field_end bytes.now) }
    ensures found { IfOk result (λ x. x.0.now ≡ piece (text_end true) (drop 1 bytes.now)) }
{
    let start = scan_byte(b'~', bytes)?;
    text_piece(true, start)
}

#[tactic(auto, unfolding(crate::specs::Scanning::packed_end))]
fn packed_pieces(bytes: &[u8]) -> Result<(Editions, &[u8]), usize>
    ensures scans { IsScan (λ x. x.1.now) result (packed_end bytes.now) }
    ensures found { IfOk result (λ x. edition_texts x.0 ≡ field_pieces 5 bytes.now) }
{
    let (edition, rest) = field_piece(bytes)?;
    let (sw_edition, rest) = field_piece(rest)?;
    let (target_sw, rest) = field_piece(rest)?;
    let (target_hw, rest) = field_piece(rest)?;
    let (other, rest) = field_piece(rest)?;
    let editions = Editions {
        edition,
        sw_edition,
        target_sw,
        target_hw,
        other,
    };
    Ok((editions, rest))
}

fn alone(edition: &[u8]) -> Editions
    ensures { edition_texts result ≡ edition.now ∷ [] ∷ [] ∷ [] ∷ [] ∷ [] }
{
    Editions {
        edition,
        sw_edition: b"",
        target_sw: b"",
        target_hw: b"",
        other: b"",
    }
}

fn lone_edition(bytes: &[u8]) -> Result<(Editions, &[u8]), usize>
    requires { begins_with_tilde bytes.now ≡ false }
    ensures scans { IsScan (λ x. x.1.now) result (text_end false bytes.now) }
    ensures found { IfOk result (λ x. edition_texts x.0 ≡ edition_pieces bytes.now) }
{
    let (edition, rest) = text_piece(false, bytes)?;
    Ok((alone(edition), rest))
}

// The first byte decides: the component is packed exactly if this byte is a tilde.
#[tactic(auto, unfolding(crate::specs::Scanning::edition_end))]
fn edition_pieces(bytes: &[u8]) -> Result<(Editions, &[u8]), usize>
    ensures scans { IsScan (λ x. x.1.now) result (edition_end bytes.now) }
    ensures found { IfOk result (λ x. edition_texts x.0 ≡ edition_pieces bytes.now) }
{
    if is_at_tilde(bytes) {
        packed_pieces(bytes)
    } else {
        lone_edition(bytes)
    }
}

// Reads a colon and a component. If there is no colon, the component is missing: its piece is empty, and all bytes are
// left.
#[tactic(auto, unfolding(crate::specs::Scanning::later_end))]
fn later_text(bytes: &[u8]) -> Result<(&[u8], &[u8]), usize>
    ensures scans { IsScan (λ x. x.1.now) result (later_end (text_end false) bytes.now) }
    ensures found { IfOk result (λ x. x.0.now ≡ piece (text_end false) (behind_colon bytes.now)) }
{
    if !is_at_colon(bytes) {
        return Ok((b"", bytes));
    }
    let start = scan_byte(b':', bytes)?;
    text_piece(false, start)
}

#[tactic(auto, unfolding(crate::specs::Scanning::later_end))]
fn later_edition(bytes: &[u8]) -> Result<(Editions, &[u8]), usize>
    ensures scans { IsScan (λ x. x.1.now) result (later_end edition_end bytes.now) }
    ensures found { IfOk result (λ x. edition_texts x.0 ≡ edition_pieces (behind_colon bytes.now)) }
{
    if !is_at_colon(bytes) {
        return Ok((alone(b""), bytes));
    }
    let start = scan_byte(b':', bytes)?;
    edition_pieces(start)
}

#[tactic(auto, unfolding(crate::specs::Scanning::later_end))]
fn later_language(bytes: &[u8]) -> Result<(&[u8], &[u8]), usize>
    ensures scans { IsScan (λ x. x.1.now) result (later_end language_end bytes.now) }
    ensures found { IfOk result (λ x. x.0.now ≡ piece language_end (behind_colon bytes.now)) }
{
    if !is_at_colon(bytes) {
        return Ok((b"", bytes));
    }
    let start = scan_byte(b':', bytes)?;
    language_piece(start)
}

#[tactic(auto, unfolding(crate::specs::Scanning::all_end))]
fn all_pieces(bytes: &[u8]) -> Result<(Written, &[u8]), usize>
    ensures scans { IsScan (λ x. x.1.now) result (all_end bytes.now) }
    ensures found { IfOk result (λ x. texts x.0 ≡ all_pieces bytes.now) }
{
    let (part, rest) = part_piece(bytes)?;
    let (vendor, rest) = later_text(rest)?;
    let (product, rest) = later_text(rest)?;
    let (version, rest) = later_text(rest)?;
    let (update, rest) = later_text(rest)?;
    let (editions, rest) = later_edition(rest)?;
    let (language, rest) = later_language(rest)?;
    let written = Written {
        part,
        vendor,
        product,
        version,
        update,
        edition: editions.edition,
        language,
        sw_edition: editions.sw_edition,
        target_sw: editions.target_sw,
        target_hw: editions.target_hw,
        other: editions.other,
    };
    Ok((written, rest))
}

fn scan_in_either_case(expected: u8, bytes: &[u8]) -> Result<&[u8], usize>
    ensures { IsScan (λ rest. rest.now) result (scan_one (λ d. to_ascii_lowercase d == expected) bytes.now) }
{
    match bytes {
        [byte, rest @ ..] if byte.to_ascii_lowercase() == expected => Ok(rest),
        _ => Err(bytes.len()),
    }
}

fn scan_prefix<'a>(expected: &[u8], bytes: &'a [u8]) -> Result<&'a [u8], usize>
    ensures { IsScan (λ rest. rest.now) result (prefix_end expected.now bytes.now) }
{
    let mut rest = bytes;
    for byte in expected {
        rest = scan_in_either_case(*byte, rest)?;
    }
    Ok(rest)
}

// An error is the number of bytes left, because a scanner doesn't know how long the whole text is.
#[tactic(auto, using(crate::proofs::Scanned::start_leaves, crate::proofs::Scanned::pieces_leave))]
pub(crate) fn scan_uri(text: &[u8]) -> Result<Written, usize>
    ensures found { IfOk result (AreUriComponents text.now) }
    ensures refused { IfErr result (StopsAt IsUri text.now) }
{
    let rest = scan_prefix(b"cpe:/", text)?;
    let (written, behind) = all_pieces(rest)?;
    if !behind.is_empty() {
        return Err(behind.len());
    }
    Ok(written)
}

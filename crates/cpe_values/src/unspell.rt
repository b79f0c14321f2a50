// Texts from their spelling.
ghost use Rattle.std.specs.Prelude.{◌≡◌, ◌<◌, ◌≤◌, ◌^◌, ◌∷◌, [], length, IfOk, IfSome, MatchOption, ⊤};
ghost use Rattle.cpe_values.specs.declared.spelling.Style.{Style};
ghost use Rattle.cpe_values.specs.Parts.{Parts, IsText};
ghost use Rattle.cpe_values.specs.Spelling.{spelling};
ghost use Rattle.cpe_values.specs.Spelled.{IsSpelling};
ghost use Rattle.cpe_values.specs.Borrowed.{text_lent};
ghost use Rattle.cpe_values.specs.Unspelling.{marks_count, edge_at, behind_edge, body_at, behind_body, ends_body, parts_at};

use crate::bare::skip_bare;
use crate::borrowed::TextRef;
use crate::value::{Edge, Pattern, own_text, text_of};
use out_of_memory::Memory;
use std::alloc::Global;

// The number of question marks at the start.
fn count_marks(bytes: &[u8]) -> usize
    ensures count { result ≡ marks_count bytes.now }
    ensures within { result ≤ length bytes.now }
{
    bytes.iter().take_while(|byte| **byte == b'?').count()
}

// The lead or trail at the start, and the bytes after it.
fn split_edge(bytes: &[u8]) -> (Edge, &[u8])
    requires { marks_count bytes.now < 2 ^ 32 }
    ensures edge { result.0 ≡ edge_at bytes.now }
    ensures rest { result.1.now ≡ behind_edge bytes.now }
{
    match bytes {
        [b'*', rest @ ..] => (Edge::Star, rest),
        [b'?', ..] => {
            let marks = count_marks(bytes);
            (Edge::Marks(marks as u32), &bytes[marks..])
        }
        _ => (Edge::None, bytes),
    }
}

// The next character of a body, and the bytes after it. The result is `None` if the body is over.
#[tactic(auto, unfolding(crate::specs::Unspelling::body_at, crate::specs::Unspelling::behind_body))]
fn next_character(bytes: &[u8]) -> Option<(u8, &[u8])>
    ensures body { MatchOption result (body_at bytes.now ≡ []) (λ x. body_at bytes.now ≡ x.0 ∷ body_at x.1.now) }
    ensures rest { MatchOption result (behind_body bytes.now ≡ bytes.now) (λ x. behind_body bytes.now ≡ behind_body x.1.now) }
    ensures shorter { MatchOption result ⊤ (λ x. length x.1.now < length bytes.now) }
{
    match bytes {
        [] | [b'*' | b'?', ..] => None,
        [b'\\', quoted, rest @ ..] => Some((*quoted, rest)),
        [bare, rest @ ..] => Some((*bare, rest)),
    }
}

// The body at the start, without its backslashes, and the bytes after it.
fn split_body(alloc: Global, bytes: &[u8]) -> Result<(Vec<u8>, &[u8]), Memory>
    ensures body { IfOk result (λ x. x.0.items ≡ body_at bytes.now) }
    ensures rest { IfOk result (λ x. x.1.now ≡ behind_body bytes.now) }
{
    let mut body = Vec::with_capacity(alloc, bytes.len())?;
    let mut rest = bytes;
    while let Some((byte, tail)) = next_character(rest) {
        body.push(byte)?;
        rest = tail;
    }
    Ok((body, rest))
}

// The text at the start. Its body is read character by character.
#[tactic(auto, using(crate::proofs::Unspelled::marks_fit))]
fn split_text(alloc: Global, bytes: &[u8]) -> Result<Pattern, Memory>
    requires { IsText (parts_at bytes.now) }
    ensures { IfOk result (λ text. text ≡ parts_at bytes.now) }
{
    let (lead, rest) = split_edge(bytes);
    let (body, rest) = split_body(alloc, rest)?;
    let (trail, _) = split_edge(rest);
    own_text(alloc, lead, body, trail)
}

// Whether the body is over: the next byte is a special, or there is none.
fn ends_body(bytes: &[u8]) -> bool
    ensures { result ≡ ends_body bytes.now }
{
    matches!(bytes, [] | [b'*' | b'?', ..])
}

// The body at the start, borrowed, and the bytes after it. The result is `None` if the body has a backslash.
#[inline(always)]
fn lend_body(bytes: &[u8]) -> Option<(&[u8], &[u8])>
    ensures body { IfSome result (λ x. x.0.now ≡ body_at bytes.now) }
    ensures rest { IfSome result (λ x. x.1.now ≡ behind_body bytes.now) }
{
    let behind = skip_bare(bytes);
    if !ends_body(behind) {
        return None;
    }
    Some((&bytes[..bytes.len() - behind.len()], behind))
}

#[tactic(auto, using(crate::proofs::Unspelled::marks_fit))]
fn lend_text(bytes: &[u8]) -> Option<TextRef<'_>>
    requires { IsText (parts_at bytes.now) }
    ensures { IfSome result (λ text. text_lent text ≡ parts_at bytes.now) }
{
    let (lead, rest) = split_edge(bytes);
    let (stem, behind) = lend_body(rest)?;
    let (trail, _) = split_edge(behind);
    Some(TextRef { lead, stem, trail })
}

// The text at the start. If its body has no backslash, it is copied all at once.
fn read_text(alloc: Global, bytes: &[u8]) -> Result<Pattern, Memory>
    requires { IsText (parts_at bytes.now) }
    ensures { IfOk result (λ text. text ≡ parts_at bytes.now) }
{
    match lend_text(bytes) {
        Some(text) => text_of(alloc, text.lead, text.stem, text.trail),
        None => split_text(alloc, bytes),
    }
}

/// The text with this spelling, in either style. No two texts have the same spelling.
///
/// # Errors
/// `Memory` if memory runs out; there is no other error.
pub fn read_spelling(alloc: Global, bytes: &[u8]) -> Result<Pattern, Memory>
    requires { IsSpelling bytes.now }
    ensures { (style : Style) (t : Parts) → IsText t → spelling style t ≡ bytes.now → IfOk result (λ text. text ≡ t) }
{
    read_text(alloc, bytes)
}

/// The text with this spelling, borrowed. The result is `None` if the body has a backslash. Allocates: no.
pub fn lend_spelling(bytes: &[u8]) -> Option<TextRef<'_>>
    requires { IsSpelling bytes.now }
    ensures { (style : Style) (t : Parts) → IsText t → spelling style t ≡ bytes.now → IfSome result (λ text. text_lent text ≡ t) }
{
    lend_text(bytes)
}

// Finds the values of a name in one of its texts. Nothing here allocates memory.
ghost use Rattle.std.specs.Prelude.{◌≡◌, ◌-◌, ◌==◌, ◌≤◌, ◌∷◌, ℕ, List, [], take, length, Some, None, IfSome, MatchOption, option_map};
ghost use Rattle.cpe_name.specs.Names.{attributes};
ghost use Rattle.cpe_name.specs.WfnText.{attribute_rank, IsWfnText};
ghost use Rattle.cpe_name.specs.Scanning.{FindsView, left_of_scan, value_end, value_at, is_lone, is_part_in_quotes, is_part_text, is_region_behind, is_language_in_quotes, is_language_text, has_text_shape, may_have_text, after_at, key_text, name_at, item_at, skip, next_at, slot, put_text, none_given, is_some_text, step_at, list_at, is_text_end, list_or_end, all_at};
ghost use Rattle.cpe_name.specs.Spans.{texts, AreWritten};

use crate::quoted::scan_value;
use crate::written::{no_texts, put_text, text_at};
use crate::{ATTRIBUTES, Attribute, Written};
use cpe_values::{is_digit_byte, is_letter_byte};
use name_grammar::{prefix_of, scan_literal};

// The bytes after `expected`, if `bytes` begin with it. The length is tested first: then each byte takes one test if
// the expected bytes are constants.
#[inline(always)]
#[tactic(auto, using(crate::proofs::Items::after_short), unfolding(crate::specs::Scanning::after_at))]
fn rest_behind<'a>(expected: &[u8], bytes: &'a [u8]) -> Option<&'a [u8]>
    ensures { option_map (λ r. r.now) result ≡ after_at expected.now bytes.now }
{
    if bytes.len() < expected.len() {
        return None;
    }
    match scan_literal(expected, bytes) {
        Ok(rest) => Some(rest),
        Err(_) => None,
    }
}

// The bytes after the value at the start.
#[inline(never)]
fn behind_value(bytes: &[u8]) -> Option<&[u8]>
    ensures { option_map (λ r. r.now) result ≡ left_of_scan (value_end bytes.now) }
{
    match scan_value(bytes) {
        Ok(rest) => Some(rest),
        Err(_) => None,
    }
}

// The bytes after the value at the start. Most values are ANY, and ANY is found without a call.
#[inline(always)]
#[tactic(auto, using(crate::proofs::Items::any_found))]
fn behind_likely_value(bytes: &[u8]) -> Option<&[u8]>
    ensures { option_map (λ r. r.now) result ≡ left_of_scan (value_end bytes.now) }
{
    match rest_behind(b"ANY", bytes) {
        Some(rest) => Some(rest),
        None => behind_value(bytes),
    }
}

#[inline(always)]
#[tactic(auto, unfolding(crate::specs::Scanning::value_at))]
fn split_value(bytes: &[u8]) -> Option<(&[u8], &[u8])>
    ensures { FindsView (λ x. (x.0.now, x.1.now)) result (value_at bytes.now) }
{
    let rest = behind_likely_value(bytes)?;
    Some((prefix_of(bytes, rest), rest))
}

fn is_lone(text: &[u8]) -> bool
    ensures { result ≡ is_lone text.now }
{
    matches!(text, [b'"', b'\\', b'-', b'"'])
}

fn is_part_in_quotes(bytes: &[u8]) -> bool
    ensures { result ≡ is_part_in_quotes bytes.now }
{
    match bytes {
        [letter, quote] => {
            (*letter == b'a' || *letter == b'h' || *letter == b'o') && *quote == b'"'
        }
        _ => false,
    }
}

fn is_part_text(text: &[u8]) -> bool
    ensures { result ≡ is_part_text text.now }
{
    match text {
        [b'"', rest @ ..] => is_part_in_quotes(rest),
        _ => true,
    }
}

// Whether the bytes are a region, or nothing, and then the closing quote.
fn is_region_behind(bytes: &[u8]) -> bool
    ensures { result ≡ is_region_behind bytes.now }
{
    match bytes {
        [quote] => *quote == b'"',
        [slash, hyphen, a, b, quote] => {
            *slash == b'\\'
                && *hyphen == b'-'
                && is_letter_byte(*a)
                && is_letter_byte(*b)
                && *quote == b'"'
        }
        [slash, hyphen, a, b, c, quote] => {
            *slash == b'\\'
                && *hyphen == b'-'
                && is_digit_byte(*a)
                && is_digit_byte(*b)
                && is_digit_byte(*c)
                && *quote == b'"'
        }
        _ => false,
    }
}

fn is_language_in_quotes(bytes: &[u8]) -> bool
    ensures { result ≡ is_language_in_quotes bytes.now }
{
    match bytes {
        [a, b, c, rest @ ..] => {
            is_letter_byte(*a)
                && is_letter_byte(*b)
                && (is_region_behind(&bytes[2..]) || is_letter_byte(*c) && is_region_behind(rest))
        }
        _ => false,
    }
}

fn is_language_text(text: &[u8]) -> bool
    ensures { result ≡ is_language_text text.now }
{
    match text {
        [b'"', rest @ ..] => is_language_in_quotes(rest),
        _ => true,
    }
}

fn has_shape(which: Attribute, text: &[u8]) -> bool
    ensures { result ≡ has_text_shape which text.now }
{
    match which {
        Attribute::Part => is_part_text(text),
        Attribute::Language => is_language_text(text),
        _ => true,
    }
}

// The bytes after the name of this attribute and `=`. Each key is compared as a constant, so that its length is known
// to the compiler.
#[inline(always)]
fn after_key(which: Attribute, bytes: &[u8]) -> Option<&[u8]>
    ensures { option_map (λ r. r.now) result ≡ after_at (key_text which) bytes.now }
{
    match which {
        Attribute::Part => rest_behind(b"part=", bytes),
        Attribute::Vendor => rest_behind(b"vendor=", bytes),
        Attribute::Product => rest_behind(b"product=", bytes),
        Attribute::Version => rest_behind(b"version=", bytes),
        Attribute::Update => rest_behind(b"update=", bytes),
        Attribute::Edition => rest_behind(b"edition=", bytes),
        Attribute::Language => rest_behind(b"language=", bytes),
        Attribute::SwEdition => rest_behind(b"sw_edition=", bytes),
        Attribute::TargetSw => rest_behind(b"target_sw=", bytes),
        Attribute::TargetHw => rest_behind(b"target_hw=", bytes),
        Attribute::Other => rest_behind(b"other=", bytes),
    }
}

// The attribute among these whose name is at the start, and the bytes after its name and `=`.
#[inline(always)]
#[tactic(auto, unfolding(crate::specs::Scanning::name_at))]
fn name_among<'a>(which: &[Attribute], bytes: &'a [u8]) -> Option<(Attribute, &'a [u8])>
    ensures { FindsView (λ x. (x.0, x.1.now)) result (name_at which.now bytes.now) }
{
    for attribute in which {
        if let Some(rest) = after_key(*attribute, bytes) {
            return Some((*attribute, rest));
        }
    }
    None
}

// The attribute whose name is at the start, and the bytes after its name and `=`. The attribute `likely` is tested
// first.
#[inline(always)]
#[tactic(auto, using(crate::proofs::Items::name_found))]
fn scan_name(likely: Attribute, bytes: &[u8]) -> Option<(Attribute, &[u8])>
    ensures { FindsView (λ x. (x.0, x.1.now)) result (name_at attributes bytes.now) }
{
    if let Some(rest) = after_key(likely, bytes) {
        return Some((likely, rest));
    }
    name_among(&ATTRIBUTES, bytes)
}

// The attribute that mostly follows this one. It is only a guess, and no result depends on it.
fn following(which: Attribute) -> Attribute {
    match which {
        Attribute::Part => Attribute::Vendor,
        Attribute::Vendor => Attribute::Product,
        Attribute::Product => Attribute::Version,
        Attribute::Version => Attribute::Update,
        Attribute::Update => Attribute::Edition,
        Attribute::Edition => Attribute::Language,
        Attribute::Language => Attribute::SwEdition,
        Attribute::SwEdition => Attribute::TargetSw,
        Attribute::TargetSw => Attribute::TargetHw,
        Attribute::TargetHw => Attribute::Other,
        Attribute::Other => Attribute::Part,
    }
}

#[tactic(auto, unfolding(crate::specs::Scanning::item_at))]
fn scan_item(likely: Attribute, bytes: &[u8]) -> Option<(Attribute, &[u8], &[u8])>
    ensures { FindsView (λ x. ((x.0, x.1.now), x.2.now)) result (item_at bytes.now) }
{
    let (which, rest) = scan_name(likely, bytes)?;
    let (text, rest) = split_value(rest)?;
    if is_lone(text) || !has_shape(which, text) {
        return None;
    }
    Some((which, text, rest))
}

#[tactic(auto, unfolding(crate::specs::Scanning::skip))]
fn skip_spaces(bytes: &[u8]) -> &[u8]
    ensures { result.now ≡ skip bytes.now }
{
    let mut rest = bytes;
    while let [b' ', tail @ ..] = rest {
        rest = tail;
    }
    rest
}

// What follows an attribute: `Some(None)` at the end of the text, else the bytes after a comma and spaces. `None` if
// neither is there.
#[tactic(auto, unfolding(crate::specs::Scanning::next_at))]
fn scan_next(bytes: &[u8]) -> Option<Option<&[u8]>>
    ensures { FindsView (λ next. option_map (λ r. r.now) next) result (next_at bytes.now) }
{
    match bytes {
        [b',', rest @ ..] => Some(Some(skip_spaces(rest))),
        [b']'] => Some(None),
        _ => None,
    }
}

fn is_some_text(text: &[u8]) -> bool
    ensures { result ≡ is_some_text text.now }
{
    !text.is_empty()
}

// Takes one attribute that was not given before. Returns the attribute and what follows it.
#[tactic(auto, unfolding(crate::specs::Scanning::step_at))]
fn scan_step<'a>(
    written: &mut Written<'a>,
    likely: Attribute,
    bytes: &'a [u8],
) -> Option<(Attribute, Option<&'a [u8]>)>
    ensures { FindsView (λ x. (texts written.new, option_map (λ r. r.now) x.1)) result (step_at (texts written.old) bytes.now) }
{
    let (which, text, rest) = scan_item(likely, bytes)?;
    if is_some_text(text_at(written, which)) {
        return None;
    }
    let next = scan_next(rest)?;
    put_text(written, which, text);
    Some((which, next))
}

// Takes the attributes up to the end of the list. The limit is eleven, since a twelfth would repeat an attribute.
#[inline(never)]
#[tactic(auto, using(crate::proofs::Steps::over))]
fn scan_list(bytes: &[u8]) -> Option<Written>
    ensures { FindsView texts result (list_at 11 none_given bytes.now) }
{
    let mut written = no_texts();
    let mut likely = Attribute::Part;
    let mut rest = bytes;
    for _ in 0..11u8 {
        let Some((which, next)) = scan_step(&mut written, likely, rest) else {
            return None;
        };
        likely = following(which);
        match next {
            Some(tail) => rest = tail,
            None => return Some(written),
        }
    }
    None
}

fn is_end(bytes: &[u8]) -> bool
    ensures { result ≡ is_text_end bytes.now }
{
    matches!(bytes, [b']'])
}

fn scan_list_or_end(bytes: &[u8]) -> Option<Written>
    ensures { FindsView texts result (list_or_end bytes.now) }
{
    if is_end(bytes) {
        return Some(no_texts());
    }
    scan_list(bytes)
}

#[tactic(auto, unfolding(crate::specs::Scanning::all_at))]
fn scan_all(text: &[u8]) -> Option<Written>
    ensures { FindsView texts result (all_at text.now) }
{
    let Some(rest) = rest_behind(b"wfn:[", text) else {
        return None;
    };
    scan_list_or_end(rest)
}

/// The texts of the eleven values in the text of a name (NIST IR 7695, 5). Allocates: no.
///
/// The text has a list of attributes, in any order, each at most once. The list may be empty. A comma may be followed
/// by any number of spaces, and no other spaces are allowed. The result is `None` exactly if no name has this text.
pub fn scan_wfn(text: &[u8]) -> Option<Written>
    ensures found { IfSome result (AreWritten text.now) }
    ensures refused { result ≡ None → ¬ (IsWfnText text.now) }
{
    scan_all(text)
}

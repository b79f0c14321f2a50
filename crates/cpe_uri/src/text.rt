// Finds the end of a component of a URI (NIST IR 7695, 6.1). Nothing here allocates.
ghost use Rattle.std.specs.Prelude.{◌≡◌, ◌≤◌, Bool, length};
ghost use Rattle.name_grammar.specs.Scanners.{IsScan};
ghost use Rattle.cpe_values.specs.Parts.{is_character};
ghost use Rattle.cpe_uri.specs.Spelling.{is_hex, hex_value, has_percent_form};
ghost use Rattle.cpe_uri.specs.declared.text.Stage.TheVariants.{Start};
ghost use Rattle.cpe_uri.specs.declared.text.TextState.TheVariants.{Whole};
ghost use Rattle.cpe_uri.specs.TextMachine.{after_mark, after_star, takes_character, is_start, after_character, next, is_over, is_bare_here, takes_special, takes_digit, after_bare, after_percent, after_digit, after_code, text_step, may_end, is_in_body, begins_body, ends_component, finished, read_from, text_end};

use crate::spelling::hex_value;
use cpe_values::{Style, is_bare_byte, skip_bare};

// What was read of a component so far. It decides what may follow.
#[derive(Clone, Copy)]
pub(crate) enum Stage {
    // nothing yet
    Start,
    // a bare hyphen, which is NA if the component ends after it
    Na,
    // a hyphen as a percent form, which may not be the whole component
    Hyphen,
    // an asterisk before the body
    LeadStar,
    // this number of question marks before the body
    LeadMarks(u32),
    // at least one character of the body, and nothing after it yet
    Body,
    // this number of question marks after the body
    TrailMarks(u32),
    // an asterisk after the body
    TrailStar,
}

// A stage, and how much of a percent form was read after it.
#[derive(Clone, Copy)]
pub(crate) enum TextState {
    // nothing of a percent form
    Whole(Stage),
    // a percent sign
    Percent(Stage),
    // a percent sign, and the number that the first digit represents
    Half(Stage, u8),
}

fn after_mark(stage: Stage) -> Option<Stage>
    ensures { result ≡ after_mark stage }
{
    match stage {
        Stage::Start => Some(Stage::LeadMarks(1)),
        Stage::Na | Stage::Hyphen | Stage::Body => Some(Stage::TrailMarks(1)),
        Stage::LeadMarks(marks) if marks < u32::MAX => Some(Stage::LeadMarks(marks + 1)),
        Stage::TrailMarks(marks) if marks < u32::MAX => Some(Stage::TrailMarks(marks + 1)),
        _ => None,
    }
}

fn after_star(stage: Stage) -> Option<Stage>
    ensures { result ≡ after_star stage }
{
    match stage {
        Stage::Start => Some(Stage::LeadStar),
        Stage::Na | Stage::Hyphen | Stage::Body => Some(Stage::TrailStar),
        _ => None,
    }
}

fn takes_character(stage: Stage) -> bool
    ensures { result ≡ takes_character stage }
{
    !matches!(stage, Stage::TrailMarks(_) | Stage::TrailStar)
}

fn is_start(stage: Stage) -> bool
    ensures { result ≡ is_start stage }
{
    matches!(stage, Stage::Start)
}

fn after_character(stage: Stage, code: u16) -> Option<Stage>
    ensures { result ≡ after_character stage code }
{
    if !takes_character(stage) {
        return None;
    }
    if is_start(stage) && code == 45 {
        Some(Stage::Hyphen)
    } else {
        Some(Stage::Body)
    }
}

fn is_printable(code: u16) -> bool
    ensures { result ≡ is_character code }
{
    matches!(code, 33..=126)
}

fn next(stage: Stage, code: u16) -> Option<Stage>
    ensures { result ≡ next stage code }
{
    match code {
        1 => after_mark(stage),
        2 => after_star(stage),
        _ if is_printable(code) => after_character(stage, code),
        _ => None,
    }
}

fn is_over(stage: Stage) -> bool
    ensures { result ≡ is_over stage }
{
    !matches!(stage, Stage::Hyphen | Stage::LeadStar | Stage::LeadMarks(_))
}

fn is_bare_here(packed: bool, byte: u8) -> bool
    ensures { result ≡ is_bare_here packed byte }
{
    is_bare_byte(Style::Formatted, byte) || byte == b'~' && !packed
}

fn takes_special(stage: Stage) -> bool
    ensures { result ≡ takes_special stage }
{
    after_mark(stage).is_some() || after_star(stage).is_some()
}

fn takes_digit(stage: Stage, digit: u8) -> bool
    ensures { result ≡ takes_digit stage digit }
{
    if digit == 0 {
        takes_special(stage)
    } else {
        matches!(digit, 2..=7) && takes_character(stage)
    }
}

fn after_bare(stage: Stage, byte: u8) -> Option<TextState>
    ensures { result ≡ after_bare stage byte }
{
    if is_start(stage) && byte == b'-' {
        return Some(TextState::Whole(Stage::Na));
    }
    next(stage, u16::from(byte)).map(TextState::Whole)
}

fn after_percent(stage: Stage) -> Option<TextState>
    ensures { result ≡ after_percent stage }
{
    if takes_character(stage) || takes_special(stage) {
        Some(TextState::Percent(stage))
    } else {
        None
    }
}

fn after_digit(stage: Stage, digit: u8) -> Option<TextState>
    ensures { result ≡ after_digit stage digit }
{
    if takes_digit(stage, digit) {
        Some(TextState::Half(stage, digit))
    } else {
        None
    }
}

fn has_percent_form(code: u16) -> bool
    ensures { result ≡ has_percent_form code }
{
    match code {
        1 | 2 => true,
        33..=47 | 58..=64 | 91..=94 | 96 | 123..=126 => true,
        _ => false,
    }
}

fn after_code(stage: Stage, code: u16) -> Option<TextState>
    ensures { result ≡ after_code stage code }
{
    if has_percent_form(code) {
        next(stage, code).map(TextState::Whole)
    } else {
        None
    }
}

fn is_hex_byte(byte: u8) -> bool
    ensures { result ≡ is_hex byte }
{
    matches!(byte, b'0'..=b'9' | b'A'..=b'F' | b'a'..=b'f')
}

fn step(packed: bool, state: TextState, byte: u8) -> Option<TextState>
    ensures { result ≡ text_step packed state byte }
{
    match state {
        TextState::Whole(stage) => match byte {
            b'%' => after_percent(stage),
            _ if is_bare_here(packed, byte) => after_bare(stage, byte),
            _ => None,
        },
        TextState::Percent(stage) if is_hex_byte(byte) => after_digit(stage, hex_value(byte)),
        TextState::Half(stage, high) if is_hex_byte(byte) => {
            after_code(stage, 16 * u16::from(high) + u16::from(hex_value(byte)))
        }
        _ => None,
    }
}

fn may_end(state: TextState) -> bool
    ensures { result ≡ may_end state }
{
    match state {
        TextState::Whole(stage) => is_over(stage),
        _ => false,
    }
}

fn finish(state: TextState, rest: &[u8]) -> Result<&[u8], usize>
    ensures { IsScan (λ rest. rest.now) result (finished state rest.now) }
{
    if may_end(state) {
        Ok(rest)
    } else {
        Err(rest.len())
    }
}

fn begins_body(byte: u8) -> bool
    ensures { result ≡ begins_body byte }
{
    is_bare_byte(Style::Formatted, byte) && byte != b'-'
}

fn is_in_body(state: TextState) -> bool
    ensures { result ≡ is_in_body state }
{
    matches!(state, TextState::Whole(Stage::Body))
}

fn ends_component(bytes: &[u8]) -> bool
    ensures { result ≡ ends_component bytes.now }
{
    matches!(bytes, [] | [b':', ..])
}

// Skips bare characters inside a body, many at a time. They don't change the state.
#[inline(always)]
#[tactic(auto, using(crate::proofs::Components::skip_in_body, crate::proofs::Components::skip_within))]
fn skip_from(state: TextState, bytes: &[u8]) -> &[u8]
    ensures same { (packed : Bool) → read_from packed state result.now ≡ read_from packed state bytes.now }
    ensures within { length result.now ≤ length bytes.now }
{
    if is_in_body(state) {
        skip_bare(bytes)
    } else {
        bytes
    }
}

// Most components begin with bare characters. The machine then begins after all of them, inside the body.
#[inline(always)]
fn begin(bytes: &[u8]) -> (TextState, &[u8])
    ensures same { (packed : Bool) → read_from packed result.0 result.1.now ≡ read_from packed (Whole Start) bytes.now }
{
    match bytes {
        [byte, tail @ ..] if begins_body(*byte) => (TextState::Whole(Stage::Body), skip_bare(tail)),
        _ => (TextState::Whole(Stage::Start), bytes),
    }
}

#[inline(never)]
fn scan_from(packed: bool, start: TextState, bytes: &[u8]) -> Result<&[u8], usize>
    ensures { IsScan (λ rest. rest.now) result (read_from packed start bytes.now) }
{
    let mut state = start;
    let mut rest = bytes;
    while let [byte, tail @ ..] = rest {
        let Some(next) = step(packed, state, *byte) else {
            return finish(state, rest);
        };
        state = next;
        rest = skip_from(next, tail);
    }
    finish(state, rest)
}

// In most components a colon, or the end of the text, follows the bare characters. Such a component needs no machine.
#[inline(always)]
#[tactic(auto, unfolding(crate::specs::TextMachine::text_end))]
pub(crate) fn scan_text(packed: bool, bytes: &[u8]) -> Result<&[u8], usize>
    ensures { IsScan (λ rest. rest.now) result (text_end packed bytes.now) }
{
    let (state, rest) = begin(bytes);
    if is_in_body(state) && ends_component(rest) {
        return Ok(rest);
    }
    scan_from(packed, state, rest)
}

// Scanners of the part and the language of a URI (NIST IR 7695, 6.1). Nothing here allocates.
//
// Each function reads the beginning of the bytes, and returns the bytes after it. If the bytes don't fit, the error is
// the number of bytes from the first wrong byte on.
ghost use Rattle.std.specs.Prelude.{◌≡◌, Ok, Err};
ghost use Rattle.name_grammar.specs.Scanners.{IsScan, scan_one};
ghost use Rattle.cpe_uri.specs.Languages.{is_language_byte, begins_hyphen, is_last_digit, part_end, percent_hyphen_end, hyphen_end, tag_or_nothing_end, language_end};

use cpe_name::{Hyphen, scan_language_tag};
use cpe_values::is_letter_byte;
use name_grammar::scan_literal;

fn spelled_for_a_part(byte: u8) -> bool
    ensures { result ≡ is_language_byte byte }
{
    matches!(byte.to_ascii_lowercase(), b'-' | b'a' | b'h' | b'o')
}

#[tactic(auto, unfolding(crate::specs::Languages::part_end))]
pub(crate) fn scan_part(bytes: &[u8]) -> Result<&[u8], usize>
    ensures { IsScan (λ rest. rest.now) result (part_end bytes.now) }
{
    match bytes {
        [byte, rest @ ..] if spelled_for_a_part(*byte) => Ok(rest),
        _ => Ok(bytes),
    }
}

fn scan_last_digit(bytes: &[u8]) -> Result<&[u8], usize>
    ensures { IsScan (λ rest. rest.now) result (scan_one is_last_digit bytes.now) }
{
    match bytes {
        [b'D' | b'd', rest @ ..] => Ok(rest),
        _ => Err(bytes.len()),
    }
}

#[tactic(auto, unfolding(crate::specs::Languages::percent_hyphen_end))]
fn scan_percent_hyphen(bytes: &[u8]) -> Result<&[u8], usize>
    ensures { IsScan (λ rest. rest.now) result (percent_hyphen_end bytes.now) }
{
    let rest = scan_literal(b"%2", bytes)?;
    scan_last_digit(rest)
}

#[tactic(auto, unfolding(crate::specs::Languages::hyphen_end))]
fn scan_hyphen(bytes: &[u8]) -> Result<&[u8], usize>
    ensures { IsScan (λ rest. rest.now) result (hyphen_end bytes.now) }
{
    match bytes {
        [b'-', rest @ ..] => Ok(rest),
        _ => scan_percent_hyphen(bytes),
    }
}

// The hyphen of a language tag in a URI: bare, or as a percent form.
struct AnyHyphen;

impl Hyphen for AnyHyphen {
    ghost begins = { begins_hyphen };

    ghost end = { hyphen_end };

    #[inline(always)]
    fn begins_with(byte: u8) -> bool {
        matches!(byte, b'-' | b'%')
    }

    #[inline(always)]
    fn scan(bytes: &[u8]) -> Result<&[u8], usize> {
        scan_hyphen(bytes)
    }
}

#[tactic(auto, unfolding(crate::specs::Languages::tag_or_nothing_end))]
fn scan_tag_or_nothing(bytes: &[u8]) -> Result<&[u8], usize>
    ensures { IsScan (λ rest. rest.now) result (tag_or_nothing_end bytes.now) }
{
    match bytes {
        [letter, ..] if is_letter_byte(*letter) => scan_language_tag::<AnyHyphen>(bytes),
        _ => Ok(bytes),
    }
}

#[tactic(auto, unfolding(crate::specs::Languages::language_end))]
pub(crate) fn scan_language(bytes: &[u8]) -> Result<&[u8], usize>
    ensures { IsScan (λ rest. rest.now) result (language_end bytes.now) }
{
    match bytes {
        [b'-', rest @ ..] => Ok(rest),
        _ => scan_tag_or_nothing(bytes),
    }
}

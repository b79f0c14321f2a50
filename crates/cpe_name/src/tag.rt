// Scanners of language tags (NIST IR 7695, 5.3). The bindings spell a tag alike, except its hyphen. Nothing here
// allocates memory.
//
// Each scanner takes a prefix of the bytes, and returns the bytes after this prefix. If no tag can continue at some
// byte, it returns the number of bytes from there on.
ghost use Rattle.std.specs.Prelude.{◌≡◌, ◌++◌, true, ℕ, Bool, List, Ok};
ghost use Rattle.name_grammar.specs.Scanners.{Scanner, IsScan, scan_both, scan_one};
ghost use Rattle.name_grammar.specs.Scanned.{Scans, Run};
ghost use Rattle.cpe_values.specs.Spelling.{is_letter, is_digit};
ghost use Rattle.cpe_name.specs.Shapes.{is_language_body};
ghost use Rattle.cpe_name.specs.Tags.{letters_end, digits_end, code_end, third_end, region_end, tag_end, Code, Third, Tag, is_bare_hyphen, IsHyphen, TagEnds};

use cpe_values::{is_digit_byte, is_letter_byte};

fn scan_letter(bytes: &[u8]) -> Result<&[u8], usize>
    ensures { IsScan (λ rest. rest.now) result (scan_one is_letter bytes.now) }
{
    match bytes {
        [letter, rest @ ..] if is_letter_byte(*letter) => Ok(rest),
        _ => Err(bytes.len()),
    }
}

fn scan_digit(bytes: &[u8]) -> Result<&[u8], usize>
    ensures { IsScan (λ rest. rest.now) result (scan_one is_digit bytes.now) }
{
    match bytes {
        [digit, rest @ ..] if is_digit_byte(*digit) => Ok(rest),
        _ => Err(bytes.len()),
    }
}

#[tactic(auto, unfolding(crate::specs::Tags::letters_end))]
fn scan_language_letters(bytes: &[u8]) -> Result<&[u8], usize>
    ensures { IsScan (λ rest. rest.now) result (letters_end bytes.now) }
{
    let rest = scan_letter(bytes)?;
    scan_letter(rest)
}

#[tactic(auto, unfolding(crate::specs::Tags::digits_end))]
fn scan_digits(bytes: &[u8]) -> Result<&[u8], usize>
    ensures { IsScan (λ rest. rest.now) result (digits_end bytes.now) }
{
    let rest = scan_digit(bytes)?;
    let rest = scan_digit(rest)?;
    scan_digit(rest)
}

// Takes the code of a region: two letters or three digits.
#[tactic(auto, unfolding(crate::specs::Tags::code_end))]
fn scan_region_code(bytes: &[u8]) -> Result<&[u8], usize>
    ensures { IsScan (λ rest. rest.now) result (code_end bytes.now) }
{
    match bytes {
        [first, ..] if is_digit_byte(*first) => scan_digits(bytes),
        _ => scan_language_letters(bytes),
    }
}

#[tactic(auto, unfolding(crate::specs::Tags::third_end))]
fn scan_third_letter(bytes: &[u8]) -> Result<&[u8], usize>
    ensures { IsScan (λ rest. rest.now) result (third_end bytes.now) }
{
    match bytes {
        [letter, rest @ ..] if is_letter_byte(*letter) => Ok(rest),
        _ => Ok(bytes),
    }
}

/// The spelling of the hyphen in a language tag.
pub trait Hyphen {
    ghost begins: { ℕ → Bool };

    ghost end: { Scanner };

    /// Whether the spelling of a hyphen begins with this byte.
    fn begins_with(byte: u8) -> bool
        ensures { result ≡ begins byte };

    /// Takes a hyphen, and returns the bytes after it.
    ///
    /// # Errors
    /// The number of bytes left at the byte at which no hyphen can continue.
    fn scan(bytes: &[u8]) -> Result<&[u8], usize>
        ensures { IsScan (λ rest. rest.now) result (end bytes.now) };
}

#[inline(always)]
fn scan_hyphen_and_code<H: Hyphen>(bytes: &[u8]) -> Result<&[u8], usize>
    ensures { IsScan (λ rest. rest.now) result (scan_both H.end code_end bytes.now) }
{
    let rest = H::scan(bytes)?;
    scan_region_code(rest)
}

#[inline(always)]
#[tactic(auto, unfolding(crate::specs::Tags::region_end))]
fn scan_region<H: Hyphen>(bytes: &[u8]) -> Result<&[u8], usize>
    ensures { IsScan (λ rest. rest.now) result (region_end H.begins H.end bytes.now) }
{
    match bytes {
        [byte, ..] if H::begins_with(*byte) => scan_hyphen_and_code::<H>(bytes),
        _ => Ok(bytes),
    }
}

/// Takes a language tag, and returns the bytes after it (NIST IR 7695, 5.3). A tag is two or three letters, perhaps
/// with a hyphen and the code of a region after them.
///
/// # Errors
/// The number of bytes left at the byte at which no tag can continue.
#[tactic(auto, unfolding(crate::specs::Tags::tag_end))]
pub fn scan_language_tag<H: Hyphen>(bytes: &[u8]) -> Result<&[u8], usize>
    ensures { IsScan (λ rest. rest.now) result (tag_end H.begins H.end bytes.now) }
{
    let rest = scan_language_letters(bytes)?;
    let rest = scan_third_letter(rest)?;
    scan_region::<H>(rest)
}

/// Law: the scanners of language tags take exactly the tags whose hyphen is spelled in a given way. Each tag is taken
/// if the bytes after it don't extend it. If the hyphen has no backslash, the tags are the languages of NIST IR 7695,
/// 5.3.
pub fn language_tags()
    ensures letters { Scans (Run 2 is_letter) letters_end }
    ensures third { Scans Third third_end }
    ensures code { Scans Code code_end }
    ensures tags { (spells : List ℕ → Bool) (begins : ℕ → Bool) (hyphen : Scanner) → IsHyphen spells begins hyphen → Scans (Tag spells) (tag_end begins hyphen) }
    ensures taken { (spells : List ℕ → Bool) (begins : ℕ → Bool) (hyphen : Scanner) → IsHyphen spells begins hyphen → (u r : List ℕ) → Tag spells u → TagEnds begins r → tag_end begins hyphen (u ++ r) ≡ Ok r }
    ensures language { (u : List ℕ) → (is_language_body u ≡ true → Tag is_bare_hyphen u) × (Tag is_bare_hyphen u → is_language_body u ≡ true) }
{}

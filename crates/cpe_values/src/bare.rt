// Skipping bytes of one class, sixteen at a time.
ghost use Rattle.std.specs.Prelude.{◌≡◌, ◌≤◌, ℕ, Bool, length, take, drop, nat_le};
ghost use Rattle.std.specs.List.{prefix_len};
ghost use Rattle.cpe_values.specs.Skipping.{skip_while};
ghost use Rattle.cpe_values.specs.Lanes.{lanes_where, is_between};
ghost use Rattle.cpe_values.specs.Spelling.{is_bare, is_letter, is_lower_word};
ghost use Rattle.cpe_values.specs.declared.spelling.Style.TheVariants as style;

use crate::spelling::{Style, is_bare_byte};
use std::simd::prelude::*;

// A class of bytes, with a test of one byte and a test of sixteen bytes at a time.
trait Class {
    ghost contains: { ℕ → Bool };

    fn has(byte: u8) -> bool
        ensures { result ≡ contains byte };

    fn lanes(block: u8x16) -> u8x16
        ensures { result ≡ lanes_where contains block };
}

// The lanes of the bytes from `first` to `last`: 255 for such a byte, else 0. The result is bytes, not a mask:
// contracts see the lanes of a mask as signed.
fn between(block: u8x16, first: u8, last: u8) -> u8x16
    ensures { result ≡ lanes_where (is_between first last) block }
{
    let mask = block.simd_ge(u8x16::splat(first)) & block.simd_le(u8x16::splat(last));
    mask.select(u8x16::splat(255), u8x16::splat(0))
}

// The lanes of the letters: 255 for a letter, else 0. A small letter and its capital letter differ only in the bit of
// 32.
fn letters(block: u8x16) -> u8x16
    ensures { result ≡ lanes_where is_letter block }
{
    between(block | u8x16::splat(32), b'a', b'z')
}

// The place of the first lane whose top bit is not set, or 16 if there is none.
fn first_unset(lanes: u8x16) -> usize
    ensures { result ≡ prefix_len (nat_le 128) lanes }
{
    let mask = lanes.simd_ge(u8x16::splat(128)).to_bitmask();
    mask.trailing_ones() as usize
}

// The number of bytes of the class before the first other byte, among the first sixteen bytes.
fn prefix_length<C: Class>(bytes: &[u8]) -> usize
    requires { 16 ≤ length bytes.now }
    ensures { result ≡ prefix_len C.contains (take 16 bytes.now) }
{
    first_unset(C::lanes(u8x16::from_slice(bytes)))
}

fn behind(bytes: &[u8], count: usize) -> &[u8]
    requires { count ≤ length bytes.now }
    ensures { result.now ≡ drop count bytes.now }
{
    &bytes[count..]
}

fn skip_by_one<C: Class>(bytes: &[u8]) -> &[u8]
    ensures { result.now ≡ skip_while C.contains bytes.now }
{
    let mut rest = bytes;
    while let [byte, tail @ ..] = rest {
        if !C::has(*byte) {
            return rest;
        }
        rest = tail;
    }
    rest
}

// The bytes from the first byte on that is not of the class. A run of such bytes is mostly short, and many bytes follow
// it. So a single block mostly shows the length of the run, without a branch on any byte.
fn skip<C: Class>(bytes: &[u8]) -> &[u8]
    ensures { result.now ≡ skip_while C.contains bytes.now }
{
    let mut rest = bytes;
    while rest.len() >= 16 {
        let count = prefix_length::<C>(rest);
        if count < 16 {
            return behind(rest, count);
        }
        rest = behind(rest, 16);
    }
    skip_by_one::<C>(rest)
}

// The class of the characters without a backslash in a well-formed name.
struct Word;

impl Class for Word {
    ghost contains = { is_bare style.Wfn };

    fn has(byte: u8) -> bool {
        is_bare_byte(Style::Wfn, byte)
    }

    fn lanes(block: u8x16) -> u8x16 {
        letters(block) | between(block, b'0', b'9') | between(block, b'_', b'_')
    }
}

/// The bytes after the letters, digits and `_` at the start. A well-formed name has these characters without a
/// backslash (NIST IR 7695, 5.3).
pub fn skip_word(bytes: &[u8]) -> &[u8]
    ensures { result.now ≡ skip_while (is_bare style.Wfn) bytes.now }
{
    skip::<Word>(bytes)
}

// The class of small letters, digits and `_`.
struct LowerWord;

impl Class for LowerWord {
    ghost contains = { is_lower_word };

    fn has(byte: u8) -> bool {
        matches!(byte, b'a'..=b'z' | b'0'..=b'9' | b'_')
    }

    fn lanes(block: u8x16) -> u8x16 {
        between(block, b'a', b'z') | between(block, b'0', b'9') | between(block, b'_', b'_')
    }
}

/// The bytes after the small letters, digits and `_` at the start. A well-formed name in lower case has these
/// characters without a backslash (NIST IR 7695, 5.3).
pub fn skip_lower_word(bytes: &[u8]) -> &[u8]
    ensures { result.now ≡ skip_while is_lower_word bytes.now }
{
    skip::<LowerWord>(bytes)
}

// The class of the characters without a backslash in a formatted string.
struct Bare;

impl Class for Bare {
    ghost contains = { is_bare style.Formatted };

    fn has(byte: u8) -> bool {
        is_bare_byte(Style::Formatted, byte)
    }

    fn lanes(block: u8x16) -> u8x16 {
        // From `-` to `9`, only the slash needs a backslash.
        let from_hyphen_to_nine = between(block, b'-', b'9') & !between(block, b'/', b'/');
        letters(block) | from_hyphen_to_nine | between(block, b'_', b'_')
    }
}

/// The bytes after the letters, digits, `_`, `.` and `-` at the start. A formatted string has these characters without
/// a backslash (NIST IR 7695, 6.2).
pub fn skip_bare(bytes: &[u8]) -> &[u8]
    ensures { result.now ≡ skip_while (is_bare style.Formatted) bytes.now }
{
    skip::<Bare>(bytes)
}

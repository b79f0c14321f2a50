// Writes the text of a well-formed name from the pieces of its URI that spell the values (NIST IR 7695, 6.1.3). The
// caller gives the room; nothing here allocates.
ghost use Rattle.std.specs.Prelude.{◌≡◌, ◌≤◌, ◌+◌, ◌*◌, ◌++◌, ◌∷◌, [], length, take, codes};
ghost use Rattle.std.specs.Char.{to_ascii_lowercase};
ghost use Rattle.cpe_uri.specs.Spelling.{hex_value};
ghost use Rattle.cpe_uri.specs.Rewriting.{code_spelled, code_text, backslashes, bare_text, rewritten, uri_in_quotes, span_text};

use crate::spelling::{LONG_TEXT, hex_value};
use byte_room::{put, put_byte};
use cpe_name::PutValue;
use cpe_values::skip_lower_word;
use name_grammar::prefix_of;

// The code of a character or special that two hexadecimal digits spell. For other bytes the result wraps around; a
// scanned piece has no such bytes.
fn code_of(high: u8, low: u8) -> u8
    ensures { result ≡ code_spelled high low }
{
    hex_value(high)
        .wrapping_mul(16)
        .wrapping_add(hex_value(low))
}

fn put_code(room: &mut [u8], at: usize, code: u8) -> usize
    requires { at + 2 ≤ length room.old }
    ensures at { result ≤ at + 2 }
    ensures room { length room.new ≡ length room.old }
    ensures written { take result room.new ≡ take at room.old ++ code_text code }
{
    match code {
        1 => put_byte(room, at, b'?'),
        2 => put_byte(room, at, b'*'),
        _ => put(room, at, &[b'\\', code]),
    }
}

// For each byte: its lower case, plus 256 if it gets a backslash, as `.`, `-` and `~` do. It is a table, so that no
// branch depends on the byte.
#[rattlefmt::skip]
const LOWERED: [u16; 256] = [
    0, 1, 2, 3, 4, 5, 6, 7, 8, 9, 10, 11, 12, 13, 14, 15,
    16, 17, 18, 19, 20, 21, 22, 23, 24, 25, 26, 27, 28, 29, 30, 31,
    32, 33, 34, 35, 36, 37, 38, 39, 40, 41, 42, 43, 44, 301, 302, 47,
    48, 49, 50, 51, 52, 53, 54, 55, 56, 57, 58, 59, 60, 61, 62, 63,
    64, 97, 98, 99, 100, 101, 102, 103, 104, 105, 106, 107, 108, 109, 110, 111,
    112, 113, 114, 115, 116, 117, 118, 119, 120, 121, 122, 91, 92, 93, 94, 95,
    96, 97, 98, 99, 100, 101, 102, 103, 104, 105, 106, 107, 108, 109, 110, 111,
    112, 113, 114, 115, 116, 117, 118, 119, 120, 121, 122, 123, 124, 125, 382, 127,
    128, 129, 130, 131, 132, 133, 134, 135, 136, 137, 138, 139, 140, 141, 142, 143,
    144, 145, 146, 147, 148, 149, 150, 151, 152, 153, 154, 155, 156, 157, 158, 159,
    160, 161, 162, 163, 164, 165, 166, 167, 168, 169, 170, 171, 172, 173, 174, 175,
    176, 177, 178, 179, 180, 181, 182, 183, 184, 185, 186, 187, 188, 189, 190, 191,
    192, 193, 194, 195, 196, 197, 198, 199, 200, 201, 202, 203, 204, 205, 206, 207,
    208, 209, 210, 211, 212, 213, 214, 215, 216, 217, 218, 219, 220, 221, 222, 223,
    224, 225, 226, 227, 228, 229, 230, 231, 232, 233, 234, 235, 236, 237, 238, 239,
    240, 241, 242, 243, 244, 245, 246, 247, 248, 249, 250, 251, 252, 253, 254, 255,
];

// The number of backslashes before a bare byte of a URI, 0 or 1, and the byte in lower case.
#[inline(always)]
fn lowered(byte: u8) -> (u8, u8)
    ensures backslashes { result.0 ≡ backslashes byte }
    ensures lower { result.1 ≡ to_ascii_lowercase byte }
{
    let entry = LOWERED[usize::from(byte)];
    ((entry / 256) as u8, (entry % 256) as u8)
}

// Always writes the backslash, and overwrites it if the byte needs none. So no branch depends on the byte.
fn put_bare(room: &mut [u8], at: usize, byte: u8) -> usize
    requires { at + 2 ≤ length room.old }
    ensures at { result ≤ at + 2 }
    ensures room { length room.new ≡ length room.old }
    ensures written { take result room.new ≡ take at room.old ++ bare_text byte }
{
    let (backslashes, lower) = lowered(byte);
    room[at] = b'\\';
    let place = at + usize::from(backslashes);
    room[place] = lower;
    place + 1
}

// Writes what a percent form spells. Returns the place after it, and the bytes left. A percent sign without two bytes
// after it is written as a bare byte; a scanned piece has none.
fn put_percent<'a>(room: &mut [u8], at: usize, behind: &'a [u8]) -> (usize, &'a [u8])
    requires { at + 2 ≤ length room.old }
    ensures at { result.0 ≤ at + 2 }
    ensures shorter { length result.1.now ≤ length behind.now }
    ensures room { length room.new ≡ length room.old }
    ensures written { take result.0 room.new ++ rewritten result.1.now ≡ take at room.old ++ rewritten (37 ∷ behind.now) }
{
    match behind {
        [high, low, rest @ ..] => (put_code(room, at, code_of(*high, *low)), rest),
        _ => (put_bare(room, at, b'%'), behind),
    }
}

#[inline(always)]
fn put_next<'a>(room: &mut [u8], at: usize, byte: u8, behind: &'a [u8]) -> (usize, &'a [u8])
    requires { at + 2 ≤ length room.old }
    ensures at { result.0 ≤ at + 2 }
    ensures shorter { length result.1.now ≤ length behind.now }
    ensures room { length room.new ≡ length room.old }
    ensures written { take result.0 room.new ++ rewritten result.1.now ≡ take at room.old ++ rewritten (byte ∷ behind.now) }
{
    if byte == b'%' {
        return put_percent(room, at, behind);
    }
    (put_bare(room, at, byte), behind)
}

// Copies the small letters, digits and `_` at the beginning, many at a time. Returns the place after them, and the
// bytes left.
fn put_word<'a>(room: &mut [u8], at: usize, bytes: &'a [u8]) -> (usize, &'a [u8])
    requires { at + 2 * length bytes.now ≤ length room.old }
    ensures at { result.0 + 2 * length result.1.now ≤ at + 2 * length bytes.now }
    ensures shorter { length result.1.now ≤ length bytes.now }
    ensures room { length room.new ≡ length room.old }
    ensures written { take result.0 room.new ++ rewritten result.1.now ≡ take at room.old ++ rewritten bytes.now }
{
    let behind = skip_lower_word(bytes);
    (put(room, at, prefix_of(bytes, behind)), behind)
}

// Writes a long text, except its last bytes. Words are copied at once. Percent forms and other bytes between words are
// written one by one.
fn put_words<'a>(room: &mut [u8], start: usize, span: &'a [u8]) -> (usize, &'a [u8])
    requires { start + 2 * length span.now ≤ length room.old }
    ensures at { result.0 + 2 * length result.1.now ≤ start + 2 * length span.now }
    ensures room { length room.new ≡ length room.old }
    ensures written { take result.0 room.new ++ rewritten result.1.now ≡ take start room.old ++ rewritten span.now }
{
    let mut at = start;
    let mut rest = span;
    while rest.len() >= LONG_TEXT {
        let [byte, behind @ ..] = rest else {
            return (at, rest);
        };
        let (end, left) = put_next(room, at, *byte, behind);
        (at, rest) = put_word(room, end, left);
    }
    (at, rest)
}

// Writes the bytes before the first percent sign, one by one. Returns the place after them, and the bytes left.
#[inline(always)]
fn put_run<'a>(room: &mut [u8], start: usize, bytes: &'a [u8]) -> (usize, &'a [u8])
    requires { start + 2 * length bytes.now ≤ length room.old }
    ensures at { result.0 + 2 * length result.1.now ≤ start + 2 * length bytes.now }
    ensures shorter { length result.1.now ≤ length bytes.now }
    ensures room { length room.new ≡ length room.old }
    ensures written { take result.0 room.new ++ rewritten result.1.now ≡ take start room.old ++ rewritten bytes.now }
{
    let mut at = start;
    let mut rest = bytes;
    while let [byte, behind @ ..] = rest {
        if *byte == b'%' {
            return (at, rest);
        }
        at = put_bare(room, at, *byte);
        rest = behind;
    }
    (at, rest)
}

#[inline(always)]
fn put_each(room: &mut [u8], start: usize, span: &[u8]) -> usize
    requires { start + 2 * length span.now ≤ length room.old }
    ensures at { result ≤ start + 2 * length span.now }
    ensures room { length room.new ≡ length room.old }
    ensures written { take result room.new ≡ take start room.old ++ rewritten span.now }
{
    let (mut at, mut rest) = put_run(room, start, span);
    while let [byte, behind @ ..] = rest {
        let (end, left) = put_next(room, at, *byte, behind);
        (at, rest) = put_run(room, end, left);
    }
    at
}

#[inline(never)]
fn put_long(room: &mut [u8], at: usize, span: &[u8]) -> usize
    requires { at + 2 * length span.now ≤ length room.old }
    ensures at { result ≤ at + 2 * length span.now }
    ensures room { length room.new ≡ length room.old }
    ensures written { take result room.new ≡ take at room.old ++ rewritten span.now }
{
    let (end, rest) = put_words(room, at, span);
    put_each(room, end, rest)
}

pub(crate) fn put_rewritten(room: &mut [u8], at: usize, span: &[u8]) -> usize
    requires { at + 2 * length span.now ≤ length room.old }
    ensures at { result ≤ at + 2 * length span.now }
    ensures room { length room.new ≡ length room.old }
    ensures written { take result room.new ≡ take at room.old ++ rewritten span.now }
{
    if span.len() < LONG_TEXT {
        put_each(room, at, span)
    } else {
        put_long(room, at, span)
    }
}

#[inline(never)]
fn put_in_quotes(room: &mut [u8], at: usize, span: &[u8]) -> usize
    requires { at + 2 * length span.now + 2 ≤ length room.old }
    ensures at { result ≤ at + 2 * length span.now + 2 }
    ensures room { length room.new ≡ length room.old }
    ensures written { take result room.new ≡ take at room.old ++ uri_in_quotes span.now }
{
    let at = put_byte(room, at, b'"');
    let at = put_rewritten(room, at, span);
    put_byte(room, at, b'"')
}

#[inline(always)]
#[tactic(auto, unfolding(crate::specs::Rewriting::span_text))]
fn put_span(room: &mut [u8], at: usize, span: &[u8]) -> usize
    requires { at + 2 * length span.now + 3 ≤ length room.old }
    ensures at { result ≤ at + 2 * length span.now + 3 }
    ensures room { length room.new ≡ length room.old }
    ensures written { take result room.new ≡ take at room.old ++ span_text span.now }
{
    match span {
        [] => put(room, at, b"ANY"),
        [b'-'] => put(room, at, b"NA"),
        _ => put_in_quotes(room, at, span),
    }
}

// Writes the texts of values from the pieces of a URI that spell them.
pub(crate) struct FromPieces;

impl PutValue for FromPieces {
    ghost text = { span_text };

    ghost spare = { 3 };

    #[inline(always)]
    #[tactic(auto, unfolding(crate::specs::Rewriting::span_text))]
    fn is_any(span: &[u8]) -> bool {
        span.is_empty()
    }

    #[inline(always)]
    fn put_value(room: &mut [u8], at: usize, span: &[u8]) -> usize {
        put_span(room, at, span)
    }
}

// Writes the canonical URI of a name from the name's text, in which the values were found before (NIST IR 7695, 6.1.2).
// The caller gives the room; nothing here allocates.
ghost use Rattle.std.specs.Prelude.{◌≡◌, ◌≤◌, ◌+◌, ◌*◌, ◌-◌, ◌++◌, ◌∷◌, [], length, take, false, if◌then◌else◌};
ghost use Rattle.std.specs.List.{list_all};
ghost use Rattle.cpe_name.specs.Spans.{texts, total_length};
ghost use Rattle.cpe_uri.specs.Requoting.{quotes, code_from, spelled_byte, is_coded, requoted, component_from, says_any, first_from, behind, extended_texts, packed_from, edition_from, untrimmed_from, uri_from};

use crate::spelling::{LONG_TEXT, percent_form, unquoted_length};
use crate::trim::without_colons;
use byte_room::{put, put_byte};
use cpe_name::Written;
use cpe_values::skip_word;
use name_grammar::{but_last, prefix_of};

fn code_from(quoted: bool, byte: u8) -> u8
    ensures { result ≡ code_from quoted byte }
{
    match byte {
        b'?' if !quoted => 1,
        b'*' if !quoted => 2,
        _ => byte,
    }
}

// Whether a byte gets a percent form. `count` is the byte's `unquoted_length`, which the caller looks up only once. A
// quoted backslash has count 0, and gets a percent form too.
fn is_coded(quoted: bool, count: u8) -> bool
    ensures { result ≡ is_coded quoted count }
{
    count < u8::from(quoted) || count > 1
}

// Always writes the byte, and keeps it if `count` is 1. If `count` is 0, the next write overwrites the byte. So no
// branch depends on the byte.
fn put_kept(room: &mut [u8], at: usize, byte: u8, count: u8) -> usize
    requires room { at + 1 ≤ length room.old }
    requires most { count ≤ 1 }
    ensures at { result ≤ at + 1 }
    ensures room { length room.new ≡ length room.old }
    ensures written { take result room.new ≡ take at room.old ++ take count (byte ∷ []) }
{
    room[at] = byte;
    at + usize::from(count)
}

// Returns the place after the written bytes, and whether this byte quotes the next byte.
fn put_spelled(room: &mut [u8], at: usize, quoted: bool, byte: u8) -> (usize, bool)
    requires { at + 3 ≤ length room.old }
    ensures at { result.0 ≤ at + 3 }
    ensures room { length room.new ≡ length room.old }
    ensures written { take result.0 room.new ≡ take at room.old ++ spelled_byte quoted byte }
    ensures quotes { result.1 ≡ quotes quoted byte }
{
    let count = unquoted_length(byte);
    if is_coded(quoted, count) {
        let code = code_from(quoted, byte);
        return (put(room, at, &percent_form(code)), false);
    }
    (put_kept(room, at, byte, count), count == 0)
}

// Copies the letters, digits and `_` at the beginning, many at a time. Returns the place after them, and the bytes
// left.
fn put_word<'a>(room: &mut [u8], at: usize, bytes: &'a [u8]) -> (usize, &'a [u8])
    requires { at + 3 * length bytes.now ≤ length room.old }
    ensures at { result.0 + 3 * length result.1.now ≤ at + 3 * length bytes.now }
    ensures shorter { length result.1.now ≤ length bytes.now }
    ensures room { length room.new ≡ length room.old }
    ensures written { take result.0 room.new ++ requoted false result.1.now ≡ take at room.old ++ requoted false bytes.now }
{
    let behind = skip_word(bytes);
    (put(room, at, prefix_of(bytes, behind)), behind)
}

// Writes one byte, and the word after it, unless the byte quotes the next byte. Returns the place after the written
// bytes, whether the byte quotes the next byte, and the bytes left.
fn put_next<'a>(
    room: &mut [u8],
    at: usize,
    quoted: bool,
    byte: u8,
    behind: &'a [u8],
) -> (usize, bool, &'a [u8])
    requires { at + 3 * (length behind.now + 1) ≤ length room.old }
    ensures at { result.0 + 3 * length result.2.now ≤ at + 3 * (length behind.now + 1) }
    ensures shorter { length result.2.now ≤ length behind.now }
    ensures room { length room.new ≡ length room.old }
    ensures written { take result.0 room.new ++ requoted result.1 result.2.now ≡ take at room.old ++ requoted quoted (byte ∷ behind.now) }
{
    let (at, quoted) = put_spelled(room, at, quoted, byte);
    if quoted {
        return (at, true, behind);
    }
    let (at, left) = put_word(room, at, behind);
    (at, false, left)
}

// Writes a long text, except its last bytes. Words are copied at once. The bytes between words are written one by one.
#[inline(never)]
fn put_long<'a>(room: &mut [u8], start: usize, bytes: &'a [u8]) -> (usize, bool, &'a [u8])
    requires { start + 3 * length bytes.now ≤ length room.old }
    ensures at { result.0 + 3 * length result.2.now ≤ start + 3 * length bytes.now }
    ensures room { length room.new ≡ length room.old }
    ensures written { take result.0 room.new ++ requoted result.1 result.2.now ≡ take start room.old ++ requoted false bytes.now }
{
    let mut at = start;
    let mut quoted = false;
    let mut rest = bytes;
    while rest.len() >= LONG_TEXT {
        let [byte, behind @ ..] = rest else {
            return (at, quoted, rest);
        };
        (at, quoted, rest) = put_next(room, at, quoted, *byte, behind);
    }
    (at, quoted, rest)
}

fn put_each(room: &mut [u8], start: usize, first_quoted: bool, bytes: &[u8]) -> usize
    requires { start + 3 * length bytes.now ≤ length room.old }
    ensures at { result ≤ start + 3 * length bytes.now }
    ensures room { length room.new ≡ length room.old }
    ensures written { take result room.new ≡ take start room.old ++ requoted first_quoted bytes.now }
{
    let mut at = start;
    let mut quoted = first_quoted;
    for byte in bytes {
        (at, quoted) = put_spelled(room, at, quoted, *byte);
    }
    at
}

fn put_requoted(room: &mut [u8], at: usize, bytes: &[u8]) -> usize
    requires { at + 3 * length bytes.now ≤ length room.old }
    ensures at { result ≤ at + 3 * length bytes.now }
    ensures room { length room.new ≡ length room.old }
    ensures written { take result room.new ≡ take at room.old ++ requoted false bytes.now }
{
    if bytes.len() < LONG_TEXT {
        return put_each(room, at, false, bytes);
    }
    let (end, quoted, rest) = put_long(room, at, bytes);
    put_each(room, end, quoted, rest)
}

// The first byte decides the value: `"` begins a text, and `N` begins NA. Anything else is ANY, and so is an empty
// value.
#[tactic(auto, unfolding(crate::specs::Requoting::component_from))]
fn put_component(room: &mut [u8], at: usize, text: &[u8]) -> usize
    requires { at + 3 * length text.now ≤ length room.old }
    ensures at { result ≤ at + 3 * length text.now }
    ensures room { length room.new ≡ length room.old }
    ensures written { take result room.new ≡ take at room.old ++ component_from text.now }
{
    match text {
        [b'"', rest @ ..] => put_requoted(room, at, but_last(rest)),
        [b'N', ..] => put_byte(room, at, b'-'),
        _ => at,
    }
}

#[tactic(auto, unfolding(crate::specs::Requoting::first_from))]
fn put_first(room: &mut [u8], at: usize, text: &[u8]) -> usize
    requires { at + 5 + 3 * length text.now ≤ length room.old }
    ensures at { result ≤ at + 5 + 3 * length text.now }
    ensures room { length room.new ≡ length room.old }
    ensures written { take result room.new ≡ take at room.old ++ first_from text.now }
{
    let at = put(room, at, b"cpe:/");
    put_component(room, at, text)
}

#[tactic(auto, unfolding(crate::specs::Requoting::behind))]
fn put_behind(room: &mut [u8], at: usize, before: u8, text: &[u8]) -> usize
    requires { at + 1 + 3 * length text.now ≤ length room.old }
    ensures at { result ≤ at + 1 + 3 * length text.now }
    ensures room { length room.new ≡ length room.old }
    ensures written { take result room.new ≡ take at room.old ++ behind before text.now }
{
    let at = put_byte(room, at, before);
    put_component(room, at, text)
}

fn says_any(text: &[u8]) -> bool
    ensures { result ≡ says_any text.now }
{
    !matches!(text, [b'"' | b'N', ..])
}

fn is_edition_alone(written: &Written) -> bool
    ensures { result ≡ list_all says_any (extended_texts written.now) }
{
    says_any(written.sw_edition)
        && says_any(written.target_sw)
        && says_any(written.target_hw)
        && says_any(written.other)
}

fn put_packed(room: &mut [u8], at: usize, written: &Written) -> usize
    requires { at + 3 * (length written.now.edition.now + total_length (extended_texts written.now)) + 5 ≤ length room.old }
    ensures at { result ≤ at + 3 * (length written.now.edition.now + total_length (extended_texts written.now)) + 5 }
    ensures room { length room.new ≡ length room.old }
    ensures written { take result room.new ≡ take at room.old ++ packed_from written.now }
{
    let at = put_behind(room, at, b'~', written.edition);
    let at = put_behind(room, at, b'~', written.sw_edition);
    let at = put_behind(room, at, b'~', written.target_sw);
    let at = put_behind(room, at, b'~', written.target_hw);
    put_behind(room, at, b'~', written.other)
}

#[tactic(auto, unfolding(crate::specs::Requoting::edition_from))]
fn put_edition(room: &mut [u8], at: usize, written: &Written) -> usize
    requires { at + 3 * (length written.now.edition.now + total_length (extended_texts written.now)) + 6 ≤ length room.old }
    ensures at { result ≤ at + 3 * (length written.now.edition.now + total_length (extended_texts written.now)) + 6 }
    ensures room { length room.new ≡ length room.old }
    ensures written { take result room.new ≡ take at room.old ++ edition_from written.now }
{
    if is_edition_alone(written) {
        return put_behind(room, at, b':', written.edition);
    }
    let at = put_byte(room, at, b':');
    put_packed(room, at, written)
}

// At most 16 bytes are written that aren't in values: `cpe:/`, six colons and five tildes.
fn put_components(room: &mut [u8], at: usize, written: &Written) -> usize
    requires { at + 3 * total_length (texts written.now) + 16 ≤ length room.old }
    ensures at { result ≤ at + 3 * total_length (texts written.now) + 16 }
    ensures room { length room.new ≡ length room.old }
    ensures written { take result room.new ≡ take at room.old ++ untrimmed_from written.now }
{
    let at = put_first(room, at, written.part);
    let at = put_behind(room, at, b':', written.vendor);
    let at = put_behind(room, at, b':', written.product);
    let at = put_behind(room, at, b':', written.version);
    let at = put_behind(room, at, b':', written.update);
    let at = put_edition(room, at, written);
    put_behind(room, at, b':', written.language)
}

pub(crate) fn put_uri(room: &mut [u8], at: usize, written: &Written) -> usize
    requires { at + 3 * total_length (texts written.now) + 16 ≤ length room.old }
    ensures at { result ≤ at + 3 * total_length (texts written.now) + 16 }
    ensures room { length room.new ≡ length room.old }
    ensures written { take result room.new ≡ take at room.old ++ uri_from written.now }
{
    let end = put_components(room, at, written);
    without_colons(room, end)
}

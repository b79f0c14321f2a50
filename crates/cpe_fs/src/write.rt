// Writes the text of a well-formed name from the components of its formatted string (NIST IR 7695, 6.2.3). The caller
// gives the room; nothing here allocates.
ghost use Rattle.std.specs.Prelude.{◌≡◌, ◌≤◌, ◌+◌, ◌*◌, ◌++◌, ◌∷◌, [], length, take, codes, ◌||◌, ◌==◌, flat_map};
ghost use Rattle.cpe_fs.specs.Rewriting.{requoted, fs_in_quotes, span_text};

use byte_room::{put, put_byte};
use cpe_name::PutValue;

// Writes a backslash and the byte. The backslash is kept only before `.` and `-`, which are bare in a formatted string
// but quoted in a name. Otherwise the byte overwrites it. So no branch depends on the byte.
fn put_character(room: &mut [u8], at: usize, byte: u8) -> usize
    requires { at + 2 ≤ length room.old }
    ensures at { result ≤ at + 2 }
    ensures room { length room.new ≡ length room.old }
    ensures written { take result room.new ≡ take at room.old ++ requoted byte }
{
    room[at] = b'\\';
    let place = at + usize::from(byte == b'.' || byte == b'-');
    room[place] = byte;
    place + 1
}

fn put_requoted(room: &mut [u8], start: usize, span: &[u8]) -> usize
    requires { start + 2 * length span.now ≤ length room.old }
    ensures at { result ≤ start + 2 * length span.now }
    ensures room { length room.new ≡ length room.old }
    ensures written { take result room.new ≡ take start room.old ++ flat_map requoted span.now }
{
    let mut at = start;
    for byte in span {
        at = put_character(room, at, *byte);
    }
    at
}

fn put_in_quotes(room: &mut [u8], at: usize, span: &[u8]) -> usize
    requires { at + 2 * length span.now + 2 ≤ length room.old }
    ensures at { result ≤ at + 2 * length span.now + 2 }
    ensures room { length room.new ≡ length room.old }
    ensures written { take result room.new ≡ take at room.old ++ fs_in_quotes span.now }
{
    let at = put_byte(room, at, b'"');
    let at = put_requoted(room, at, span);
    put_byte(room, at, b'"')
}

#[tactic(auto, unfolding(crate::specs::Rewriting::span_text))]
fn put_span(room: &mut [u8], at: usize, span: &[u8]) -> usize
    requires { at + 2 * length span.now + 2 ≤ length room.old }
    ensures at { result ≤ at + 2 * length span.now + 2 }
    ensures room { length room.new ≡ length room.old }
    ensures written { take result room.new ≡ take at room.old ++ span_text span.now }
{
    match span {
        [b'*'] => put(room, at, b"ANY"),
        [b'-'] => put(room, at, b"NA"),
        _ => put_in_quotes(room, at, span),
    }
}

// Writes the texts of values from their components.
pub(crate) struct FromComponents;

impl PutValue for FromComponents {
    ghost text = { span_text };

    ghost spare = { 2 };

    #[inline(always)]
    #[tactic(auto, unfolding(crate::specs::Rewriting::span_text))]
    fn is_any(span: &[u8]) -> bool {
        matches!(span, [b'*'])
    }

    #[inline(always)]
    fn put_value(room: &mut [u8], at: usize, span: &[u8]) -> usize {
        put_span(room, at, span)
    }
}

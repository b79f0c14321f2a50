// Writes the formatted string of a name from the name's text, in which the values were found before (NIST IR 7695,
// 6.2.2). The caller gives the room; nothing here allocates.
ghost use Rattle.std.specs.Prelude.{◌≡◌, ◌≤◌, ◌+◌, ◌*◌, ◌-◌, ◌++◌, ◌∷◌, [], length, take, codes, ◌&&◌, ◌==◌};
ghost use Rattle.cpe_name.specs.Spans.{texts, total_length};
ghost use Rattle.cpe_fs.specs.Unquoting.{begins_bare, unquoted, component_from, keyed, written_string};

use crate::BOUND_FRAME;
use byte_room::{put, put_byte};
use cpe_name::Written;
use name_grammar::but_last;

fn begins_bare(bytes: &[u8]) -> bool
    ensures { result ≡ begins_bare bytes.now }
{
    matches!(bytes, [b'.' | b'-', ..])
}

// Whether the byte is a backslash before `.` or `-`. A formatted string doesn't have this backslash.
fn is_dropped(byte: u8, behind: &[u8]) -> bool
    ensures { result ≡ (byte == 92 && begins_bare behind.now) }
{
    byte == b'\\' && begins_bare(behind)
}

// Always writes the byte. If the byte is dropped, the next write overwrites it. So no branch depends on the byte.
#[tactic(auto, unfolding(crate::specs::Unquoting::unquoted))]
fn put_kept(room: &mut [u8], at: usize, byte: u8, behind: &[u8]) -> usize
    requires { at + 1 ≤ length room.old }
    ensures at { result ≤ at + 1 }
    ensures room { length room.new ≡ length room.old }
    ensures written { take result room.new ++ unquoted behind.now ≡ take at room.old ++ unquoted (byte ∷ behind.now) }
{
    room[at] = byte;
    at + usize::from(!is_dropped(byte, behind))
}

fn put_unquoted(room: &mut [u8], start: usize, bytes: &[u8]) -> usize
    requires { start + length bytes.now ≤ length room.old }
    ensures at { result ≤ start + length bytes.now }
    ensures room { length room.new ≡ length room.old }
    ensures written { take result room.new ≡ take start room.old ++ unquoted bytes.now }
{
    let mut at = start;
    let mut rest = bytes;
    while let [byte, behind @ ..] = rest {
        at = put_kept(room, at, *byte, behind);
        rest = behind;
    }
    at
}

#[tactic(auto, unfolding(crate::specs::Unquoting::component_from))]
fn put_component(room: &mut [u8], at: usize, text: &[u8]) -> usize
    requires { at + length text.now + 1 ≤ length room.old }
    ensures at { result ≤ at + length text.now + 1 }
    ensures room { length room.new ≡ length room.old }
    ensures written { take result room.new ≡ take at room.old ++ component_from text.now }
{
    match text {
        [b'"', rest @ ..] => put_unquoted(room, at, but_last(rest)),
        [b'N', ..] => put_byte(room, at, b'-'),
        _ => put_byte(room, at, b'*'),
    }
}

#[tactic(auto, unfolding(crate::specs::Unquoting::keyed))]
fn put_keyed(room: &mut [u8], at: usize, key: &[u8], text: &[u8]) -> usize
    requires { at + length key.now + length text.now + 1 ≤ length room.old }
    ensures at { result ≤ at + length key.now + length text.now + 1 }
    ensures room { length room.new ≡ length room.old }
    ensures written { take result room.new ≡ take at room.old ++ keyed key.now text.now }
{
    let at = put(room, at, key);
    put_component(room, at, text)
}

pub(crate) fn put_string(room: &mut [u8], at: usize, written: &Written) -> usize
    requires { at + total_length (texts written.now) + BOUND_FRAME ≤ length room.old }
    ensures at { result ≤ at + total_length (texts written.now) + BOUND_FRAME }
    ensures room { length room.new ≡ length room.old }
    ensures written { take result room.new ≡ take at room.old ++ written_string written.now }
{
    let at = put_keyed(room, at, b"cpe:2.3:", written.part);
    let at = put_keyed(room, at, b":", written.vendor);
    let at = put_keyed(room, at, b":", written.product);
    let at = put_keyed(room, at, b":", written.version);
    let at = put_keyed(room, at, b":", written.update);
    let at = put_keyed(room, at, b":", written.edition);
    let at = put_keyed(room, at, b":", written.language);
    let at = put_keyed(room, at, b":", written.sw_edition);
    let at = put_keyed(room, at, b":", written.target_sw);
    let at = put_keyed(room, at, b":", written.target_hw);
    put_keyed(room, at, b":", written.other)
}

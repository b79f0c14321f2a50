//! Writes bytes into a room: a slice of the caller that is long enough, from a given place on. Nothing here allocates.
#![tactic(auto)]

ghost use Rattle.std.specs.Prelude.{◌≡◌, ◌≤◌, ◌+◌, ◌++◌, ◌∷◌, [], length, take, drop};

/// Writes bytes at a place, and returns the place after them.
pub fn put(room: &mut [u8], at: usize, bytes: &[u8]) -> usize
    requires { at + length bytes.now ≤ length room.old }
    ensures at { result ≡ at + length bytes.now }
    ensures room { length room.new ≡ length room.old }
    ensures written { take result room.new ≡ take at room.old ++ bytes.now }
    ensures behind { drop result room.new ≡ drop result room.old }
{
    let end = at + bytes.len();
    room[at..end].copy_from_slice(bytes);
    end
}

/// Writes one byte at a place, and returns the place after it.
pub fn put_byte(room: &mut [u8], at: usize, byte: u8) -> usize
    requires { at + 1 ≤ length room.old }
    ensures at { result ≡ at + 1 }
    ensures room { length room.new ≡ length room.old }
    ensures written { take result room.new ≡ take at room.old ++ byte ∷ [] }
    ensures behind { drop result room.new ≡ drop result room.old }
{
    room[at] = byte;
    at + 1
}

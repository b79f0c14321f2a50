// Bytes in lower case, as the search compares them.
ghost use Rattle.std.specs.Prelude.{◌≡◌, ◌<◌, length};
ghost use Rattle.cpe_relation.specs.Folded.{table_index};

// The byte at a place, in lower case.
#[inline(always)]
pub(crate) fn byte_at(bytes: &[u8], place: usize) -> u8
    requires { place < length bytes.now }
    ensures { result ≡ table_index bytes.now place }
{
    bytes[place].to_ascii_lowercase()
}

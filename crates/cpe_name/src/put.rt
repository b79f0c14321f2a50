// Writes the text of a well-formed name into given memory. The values are spans: their bytes in another text. Nothing
// here allocates memory.
ghost use Rattle.std.specs.Prelude.{◌≡◌, ◌≤◌, ◌+◌, ◌*◌, ◌++◌, ◌∷◌, [], ℕ, List, true, length, take, drop, codes};
ghost use Rattle.cpe_name.specs.Spans.{texts, total_length};
ghost use Rattle.cpe_name.specs.OutputFrom.{keyed, output_from, tail_from, any_values_tail};

use crate::Written;
use byte_room::{put, put_byte};

/// How to write the text of a value from its span, which is the bytes of the value in another text.
pub trait PutValue {
    ghost text: { List ℕ → List ℕ };

    ghost spare: { ℕ };

    /// Whether the span is known to mean ANY. A span may mean ANY even if the result is `false`.
    fn is_any(span: &[u8]) -> bool
        ensures any { result ≡ true → text span.now ≡ codes "ANY" }
        ensures room { result ≡ true → 3 ≤ 2 * length span.now + spare };

    /// Writes the text of the span's value at the place `at`, and returns the place after this text.
    fn put_value(room: &mut [u8], at: usize, span: &[u8]) -> usize
        requires { at + 2 * length span.now + spare ≤ length room.old }
        ensures at { result ≤ at + 2 * length span.now + spare }
        ensures room { length room.new ≡ length room.old }
        ensures written { take result room.new ≡ take at room.old ++ text span.now };
}

#[inline(always)]
#[tactic(auto, unfolding(crate::specs::OutputFrom::keyed))]
fn put_keyed<P: PutValue>(room: &mut [u8], at: usize, key: &[u8], span: &[u8]) -> usize
    requires { at + length key.now + 2 * length span.now + P.spare ≤ length room.old }
    ensures at { result ≤ at + length key.now + 2 * length span.now + P.spare }
    ensures room { length room.new ≡ length room.old }
    ensures written { take result room.new ≡ take at room.old ++ keyed P.text key.now span.now }
{
    let at = put(room, at, key);
    P::put_value(room, at, span)
}

// Whether each value after the version is known to be ANY, as in most names.
#[inline(always)]
#[tactic(auto, using(crate::proofs::AnyTail::any_tail_is))]
fn is_any_tail<P: PutValue>(written: &Written) -> bool
    ensures any { result ≡ true → tail_from P.text written.now ≡ any_values_tail }
    ensures room { result ≡ true → length any_values_tail ≤ 2 * total_length (drop 4 (texts written.now)) + (69 + 7 * P.spare) }
{
    P::is_any(written.update)
        && P::is_any(written.edition)
        && P::is_any(written.language)
        && P::is_any(written.sw_edition)
        && P::is_any(written.target_sw)
        && P::is_any(written.target_hw)
        && P::is_any(written.other)
}

// Writes the text after the version. If all seven values there are ANY, their text is written all at once.
#[inline(always)]
fn put_tail<P: PutValue>(room: &mut [u8], at: usize, written: &Written) -> usize
    requires { at + 2 * total_length (drop 4 (texts written.now)) + (69 + 7 * P.spare) ≤ length room.old }
    ensures at { result ≤ at + 2 * total_length (drop 4 (texts written.now)) + (69 + 7 * P.spare) }
    ensures room { length room.new ≡ length room.old }
    ensures written { take result room.new ≡ take at room.old ++ tail_from P.text written.now }
{
    if is_any_tail::<P>(written) {
        return put(
            room,
            at,
            b",update=ANY,edition=ANY,language=ANY,sw_edition=ANY,target_sw=ANY,target_hw=ANY,other=ANY]",
        );
    }
    let at = put_keyed::<P>(room, at, b",update=", written.update);
    let at = put_keyed::<P>(room, at, b",edition=", written.edition);
    let at = put_keyed::<P>(room, at, b",language=", written.language);
    let at = put_keyed::<P>(room, at, b",sw_edition=", written.sw_edition);
    let at = put_keyed::<P>(room, at, b",target_sw=", written.target_sw);
    let at = put_keyed::<P>(room, at, b",target_hw=", written.target_hw);
    let at = put_keyed::<P>(room, at, b",other=", written.other);
    put_byte(room, at, b']')
}

/// Writes the output text of the name with these values at the place `at`, and returns the place after the text. The
/// names of the attributes, the commas and the brackets take 105 bytes.
pub fn put_output<P: PutValue>(room: &mut [u8], at: usize, written: &Written) -> usize
    requires { at + 2 * total_length (texts written.now) + (105 + 11 * P.spare) ≤ length room.old }
    ensures at { result ≤ at + 2 * total_length (texts written.now) + (105 + 11 * P.spare) }
    ensures room { length room.new ≡ length room.old }
    ensures written { take result room.new ≡ take at room.old ++ output_from P.text written.now }
{
    let at = put_keyed::<P>(room, at, b"wfn:[part=", written.part);
    let at = put_keyed::<P>(room, at, b",vendor=", written.vendor);
    let at = put_keyed::<P>(room, at, b",product=", written.product);
    let at = put_keyed::<P>(room, at, b",version=", written.version);
    put_tail::<P>(room, at, written)
}

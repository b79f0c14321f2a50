// The search of the Two-Way algorithm. It compares the part after the cut from left to right, then the part before the
// cut from right to left.
ghost use Rattle.std.specs.Prelude.{◌≡◌, ◌≢◌, ◌↔◌, ℕ, ◌+◌, ◌-◌, ◌<◌, ◌≤◌, length, true, false, IsTrue};
ghost use Rattle.memchr.specs.Find.{IsFirst};
ghost use Rattle.memchr.specs.TwoWay.{OccursIn, IsCut};
ghost use Rattle.cpe_relation.specs.Folded.{table_index, shift_of};

use crate::cut::Cut;
use crate::folded::byte_at;

// The place in the body of the first byte that differs from the text, if the body is laid at `pos`. The comparison
// begins at `start`. If no byte differs, the length of the body.
#[inline(always)]
fn matched_to(text: &[u8], body: &[u8], pos: usize, start: usize) -> usize
    requires fits { pos + length body.now ≤ length text.now }
    requires from { start ≤ length body.now }
    ensures low { start ≤ result }
    ensures high { result ≤ length body.now }
    ensures same { (k : ℕ) → start ≤ k → k < result → table_index body.now k ≡ table_index text.now (pos + k) }
    ensures differs { result < length body.now → table_index body.now result ≢ table_index text.now (pos + result) }
{
    let m = body.len();
    let mut i = start;
    while i < m && byte_at(body, i) == byte_at(text, pos + i) {
        i += 1;
    }
    i
}

// Whether the bytes of the body from `low` up to `high` equal those of the text, if the body is laid at `pos`.
#[inline(always)]
pub(crate) fn matches_between(text: &[u8], body: &[u8], pos: usize, low: usize, high: usize) -> bool
    requires fits { pos + length body.now ≤ length text.now }
    requires top { high ≤ length body.now }
    ensures { IsTrue result ↔ ((k : ℕ) → low ≤ k → k < high → table_index body.now k ≡ table_index text.now (pos + k)) }
{
    let mut j = high;
    while low < j {
        j -= 1;
        if byte_at(body, j) != byte_at(text, pos + j) {
            return false;
        }
    }
    true
}

// How many of the body's first bytes are known to match after a move by the shift.
#[inline(always)]
fn kept(cut: Cut, m: usize) -> usize
    requires { cut.shift ≤ m }
    ensures none { cut.repeats ≡ false → result ≡ 0 }
    ensures some { cut.repeats ≡ true → result ≡ m - cut.shift }
{
    if cut.repeats { m - cut.shift } else { 0 }
}

// The first place, not below `from`, at which the body is found within the first `n` bytes of the text.
pub(crate) fn find(text: &[u8], n: usize, from: usize, body: &[u8], cut: Cut) -> Option<usize>
    requires cut { IsCut (table_index body.now) (length body.now) cut.critical (shift_of cut.repeats cut.shift) }
    requires some { 0 < length body.now }
    requires within { n ≤ length text.now }
    requires start { from ≤ n }
    ensures { IsFirst (OccursIn (table_index body.now) (length body.now) (table_index text.now) n) from (n + 1) result }
{
    let m = body.len();
    let critical = cut.critical;
    let (mut pos, mut known) = (from, 0);
    while pos + m <= n {
        let i = matched_to(text, body, pos, critical.max(known));
        if i < m {
            pos += i - critical + 1;
            known = 0;
            continue;
        }
        if matches_between(text, body, pos, known, critical) {
            return Some(pos);
        }
        pos += cut.shift;
        known = kept(cut, m);
    }
    None
}

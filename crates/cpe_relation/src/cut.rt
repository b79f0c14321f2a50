// The place at which the Two-Way algorithm cuts a body in two parts, and the distance that the search may move.
ghost use Rattle.std.specs.Prelude.{◌≡◌, ◌↔◌, ℕ, ◌+◌, ◌<◌, ◌≤◌, length, IsTrue};
ghost use Rattle.memchr.specs.Critical.{IsSuffixAt, IsCutPlace};
ghost use Rattle.memchr.specs.TwoWay.{IsCut};
ghost use Rattle.cpe_relation.specs.Folded.{table_index, IsBefore, shift_of};

use crate::folded::byte_at;

#[derive(Clone, Copy, Debug)]
enum Step {
    Accept,
    Skip,
    Push,
}

// Whether the candidate suffix replaces the greatest suffix so far, by one byte of each: `Accept` if it does, `Skip` if
// it doesn't, and `Push` if the bytes are equal. `usual` is false for the opposite order.
#[inline(always)]
fn compared(usual: bool, current: u8, other: u8) -> Step
    ensures accept { (result ≡ Step.Accept) → IsBefore usual current other }
    ensures skip { (result ≡ Step.Skip) → IsBefore usual other current }
    ensures push { (result ≡ Step.Push) → current ≡ other }
{
    if current == other {
        return Step::Push;
    }
    if usual {
        if current < other {
            return Step::Accept;
        }
        return Step::Skip;
    }
    if other < current {
        return Step::Accept;
    }
    Step::Skip
}

// The place in the body where its greatest suffix begins, and this suffix's period.
#[derive(Clone, Copy, Debug)]
struct Suffix {
    start: usize,
    period: usize,
}

// The greatest suffix of the body, in the usual order of bytes or in the opposite one.
fn greatest_suffix(body: &[u8], usual: bool) -> Suffix
    requires { 0 < length body.now }
    ensures { IsSuffixAt (IsBefore usual) (table_index body.now) (length body.now) result.start result.period }
{
    let m = body.len();
    let (mut start, mut period) = (0, 1);
    let (mut candidate, mut offset) = (1, 0);
    while candidate + offset < m {
        let current = byte_at(body, start + offset);
        let other = byte_at(body, candidate + offset);
        match compared(usual, current, other) {
            Step::Accept => {
                start = candidate;
                period = 1;
                candidate += 1;
                offset = 0;
            }
            Step::Skip => {
                candidate += offset + 1;
                offset = 0;
                period = candidate - start;
            }
            Step::Push => {
                if offset + 1 == period {
                    candidate += period;
                    offset = 0;
                } else {
                    offset += 1;
                }
            }
        }
    }
    Suffix { start, period }
}

// Whether the bytes before the cut are repeated one period later.
fn repeats_before(body: &[u8], critical: usize, period: usize) -> bool
    requires { critical + period ≤ length body.now }
    ensures { IsTrue result ↔ ((k : ℕ) → k < critical → table_index body.now k ≡ table_index body.now (k + period)) }
{
    for k in 0..critical {
        if byte_at(body, k) != byte_at(body, k + period) {
            return false;
        }
    }
    true
}

// The cut of a body. `critical` is the place where the body is cut. `shift` is the distance that the search moves if
// the part before the cut doesn't match. If `repeats` is set, `shift` is the body's period: after the move, all but the
// last `shift` bytes of the body are known to match, and aren't compared again. Otherwise `shift` is at most the
// period.
#[derive(Clone, Copy, Debug)]
pub(crate) struct Cut {
    pub(crate) critical: usize,
    pub(crate) shift: usize,
    pub(crate) repeats: bool,
}

// The cut of a body, at the place where the later of its two greatest suffixes begins. This place is critical.
pub(crate) fn cut_of(body: &[u8]) -> Cut
    requires { 0 < length body.now }
    ensures { IsCut (table_index body.now) (length body.now) result.critical (shift_of result.repeats result.shift) }
{
    let opposite = greatest_suffix(body, false);
    let usual = greatest_suffix(body, true);
    if opposite.start > usual.start {
        cut_at(body, opposite.start, opposite.period)
    } else {
        cut_at(body, usual.start, usual.period)
    }
}

fn cut_at(body: &[u8], critical: usize, period: usize) -> Cut
    requires { IsCutPlace (table_index body.now) (length body.now) critical period }
    ensures { IsCut (table_index body.now) (length body.now) result.critical (shift_of result.repeats result.shift) }
{
    let m = body.len();
    let large = critical.max(m - critical);
    if critical * 2 >= m {
        return Cut {
            critical,
            shift: large,
            repeats: false,
        };
    }
    if !repeats_before(body, critical, period) {
        return Cut {
            critical,
            shift: large,
            repeats: false,
        };
    }
    Cut {
        critical,
        shift: period,
        repeats: true,
    }
}

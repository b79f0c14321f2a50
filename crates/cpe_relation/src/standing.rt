// Whether a text contains a body at one of some places.
ghost use Rattle.std.specs.Prelude.{◌↔◌, ◌+◌, ◌≤◌, length, IsTrue};
ghost use Rattle.cpe_relation.specs.Standing.{HasBodyAt, OccursWithin};

use crate::cut::cut_of;
use crate::search::{find, matches_between};

// If the body has at most 16 bytes, or the last place is at most 16 after the first, each place is tried.
const FEW: usize = 16;

fn occurs_at(text: &[u8], body: &[u8], place: usize) -> bool
    requires { place + length body.now ≤ length text.now }
    ensures { IsTrue result ↔ HasBodyAt text.now body.now place }
{
    matches_between(text, body, place, 0, body.len())
}

// Tries the body at each place from `low` to `high`.
fn occurs_plainly(text: &[u8], body: &[u8], low: usize, high: usize) -> bool
    requires order { low ≤ high }
    requires within { high + length body.now ≤ length text.now }
    ensures { IsTrue result ↔ OccursWithin text.now body.now low high }
{
    for place in low..high {
        if occurs_at(text, body, place) {
            return true;
        }
    }
    occurs_at(text, body, high)
}

fn occurs_between(text: &[u8], body: &[u8], low: usize, high: usize) -> bool
    requires order { low ≤ high }
    requires within { high + length body.now ≤ length text.now }
    ensures { IsTrue result ↔ OccursWithin text.now body.now low high }
{
    if body.len() <= FEW || high - low <= FEW {
        return occurs_plainly(text, body, low, high);
    }
    find(text, high + body.len(), low, body, cut_of(body)).is_some()
}

/// Whether the text contains the body at a place from `low` to `high`, without regard to letter case. `high` counts
/// too. Places at which the body would end after the text don't count. Allocates: no. The crate's page gives the number
/// of comparisons.
pub fn occurs_within(text: &[u8], body: &[u8], low: usize, high: usize) -> bool
    ensures { IsTrue result ↔ OccursWithin text.now body.now low high }
{
    if text.len() < body.len() {
        return false;
    }
    let last = high.min(text.len() - body.len());
    if last < low {
        return false;
    }
    occurs_between(text, body, low, last)
}

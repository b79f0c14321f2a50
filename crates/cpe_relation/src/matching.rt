// Whether a pattern matches a plain text, and whether two texts are equal without regard to letter case.
ghost use Rattle.std.specs.Prelude.{◌≡◌, ◌↔◌, ℕ, ◌-◌, ◌≤◌, IsTrue};
ghost use Rattle.cpe_values.specs.Borrowed.{text_lent};
ghost use Rattle.cpe_relation.specs.MatchTests.{allows, matches_text, same_lower};

use crate::standing::occurs_within;
use cpe_values::{Edge, TextRef};

// The least number of characters before the body that the trail allows, if `room` characters are around the body. The
// trail has to allow the rest.
fn fewest_before(trail: Edge, room: usize) -> usize
    ensures within { result ≤ room }
    ensures allowed { (k : ℕ) → k ≤ room → (IsTrue (allows trail (room - k)) ↔ (result ≤ k)) }
{
    match trail {
        Edge::None => room,
        Edge::Star => 0,
        Edge::Marks(marks) => room.saturating_sub(marks as usize),
    }
}

// The greatest number of characters before the body that the lead allows, if `room` characters are around the body.
fn most_before(lead: Edge, room: usize) -> usize
    ensures within { result ≤ room }
    ensures allowed { (k : ℕ) → k ≤ room → (IsTrue (allows lead k) ↔ (k ≤ result)) }
{
    match lead {
        Edge::None => 0,
        Edge::Star => room,
        Edge::Marks(marks) => room.min(marks as usize),
    }
}

// Whether a pattern matches a text. Lead and trail allow all places between a lowest and a highest, so one search
// suffices.
pub(crate) fn is_match(pattern: &TextRef, text: &[u8]) -> bool
    ensures { result ≡ matches_text (text_lent pattern.now) text.now }
{
    let body = pattern.stem;
    if text.len() < body.len() {
        return false;
    }
    let room = text.len() - body.len();
    let low = fewest_before(pattern.trail, room);
    let high = most_before(pattern.lead, room);
    occurs_within(text, body, low, high)
}

// Whether two texts are equal in lower case. Most equal texts have equal bytes, and `==` compares these several at a
// time.
pub(crate) fn is_same(text: &[u8], other: &[u8]) -> bool
    ensures { result ≡ same_lower text.now other.now }
{
    text == other || text.eq_ignore_ascii_case(other)
}

// The names to which facts lead, and the truth that the levels of a board give them.
ghost use Rattle.std.specs.Prelude.{◌≡◌, false};
ghost use Rattle.cpe_rows.specs.Verdict.{truth};
ghost use Rattle.fact_rows.specs.Facts.{has_end_of_fact, leads_by};
ghost use Rattle.fact_rows.specs.Truths.{is_covered_level, is_maybe_level, truth_at_ends};

use cpe_rows::{Mode, Truth};
use level_board::{Level, LevelBoard};
use name_index::NameId;

// Whether one of these names has the number.
pub(crate) fn has_end(ends: &[NameId], end: u32) -> bool
    ensures { result ≡ has_end_of_fact ends.now end }
{
    ends.iter().any(|id| id.0 == end)
}

fn is_covered(level: Level) -> bool
    ensures { result ≡ is_covered_level level }
{
    match level {
        Level::Covered => true,
        _ => false,
    }
}

fn is_maybe(level: Level) -> bool
    ensures { result ≡ is_maybe_level level }
{
    match level {
        Level::Maybe => true,
        _ => false,
    }
}

// The truth of names of which none covers a target: UNKNOWN if one may cover one, else FALSE.
fn truth_of(maybe: bool) -> Truth
    ensures { result ≡ truth false maybe }
{
    if maybe {
        return Truth::Unknown;
    }
    Truth::False
}

// The truth of these names by their levels.
fn truth_of_ends(board: &LevelBoard, ends: &[NameId]) -> Truth
    ensures { result ≡ truth_at_ends board.now ends.now }
{
    let mut maybe = false;
    for id in ends {
        let level = board.level(*id);
        if is_covered(level) {
            return Truth::True;
        }
        maybe |= is_maybe(level);
    }
    truth_of(maybe)
}

// The truth of a fact with these ends: by its own level in mode plain, and by those of its ends in mode follow.
pub(crate) fn truth_by(board: &LevelBoard, mode: Mode, fact: NameId, ends: &[NameId]) -> Truth
    ensures { result ≡ truth_at_ends board.now (leads_by mode fact.0 ends.now) }
{
    match mode {
        Mode::Plain => truth_of_ends(board, &[fact]),
        Mode::Follow => truth_of_ends(board, ends),
    }
}

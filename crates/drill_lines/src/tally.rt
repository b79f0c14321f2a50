// How many statements have each verdict.
ghost use Rattle.std.specs.Prelude.{◌≡◌, ◌+◌, ◌<◌, ◌^◌, ◌-◌, ◌++◌, ◌∷◌, [], cond, length, map, take, List};
ghost use Rattle.cpe_rows.specs.Truth.{same_truth};
ghost use Rattle.cpe_rows.specs.Verdict.{verdict};
ghost use Rattle.cpe_rows.specs.declared.truth.Truth.{Truth as TruthOf};
ghost use Rattle.drill_lines.specs.Summary.{tally_of, verdicts};

use cpe_engine::Engine;
use cpe_rows::Truth;

/// How many verdicts are TRUE, FALSE, ERROR, and UNKNOWN.
#[derive(Clone, Copy)]
pub struct Tally {
    pub trues: u64,
    pub falses: u64,
    pub errors: u64,
    pub unknowns: u64,
}

impl Tally {
    // The tally with one more verdict.
    fn with(self, truth: Truth) -> Tally
        requires { (truths : List TruthOf) × (length truths < 2 ^ 64 - 1) × (self ≡ tally_of truths) }
        ensures { (truths : List TruthOf) → self ≡ tally_of truths → result ≡ tally_of (truths ++ truth ∷ []) }
    {
        Tally {
            trues: plus(self.trues, is_same(Truth::True, truth)),
            falses: plus(self.falses, is_same(Truth::False, truth)),
            errors: plus(self.errors, is_same(Truth::Error, truth)),
            unknowns: plus(self.unknowns, is_same(Truth::Unknown, truth)),
        }
    }
}

fn plus(count: u64, is_one: bool) -> u64
    requires { count < 2 ^ 64 - 1 }
    ensures { result ≡ count + cond is_one 1 0 }
{
    if is_one { count + 1 } else { count }
}

fn is_same(one: Truth, other: Truth) -> bool
    ensures { result ≡ same_truth one other }
{
    one == other
}

/// How many statements have each verdict. Allocates: no.
pub fn count_verdicts(engine: &Engine) -> Tally
    ensures { result ≡ tally_of (verdicts engine.now) }
{
    let mut so_far = Tally {
        trues: 0,
        falses: 0,
        errors: 0,
        unknowns: 0,
    };
    for place in 0..engine.statements_len() {
        so_far = with_next(engine, place, so_far);
    }
    so_far
}

// The tally with the verdict of the statement at this place.
fn with_next(engine: &Engine, place: usize, so_far: Tally) -> Tally
    requires below { place < length engine.now.statements }
    requires few { place < 2 ^ 64 - 1 }
    requires so_far { so_far ≡ tally_of (map (verdict engine.now) (take place engine.now.statements)) }
    ensures { result ≡ tally_of (map (verdict engine.now) (take (place + 1) engine.now.statements)) }
{
    match engine.statement_at(place) {
        Some((_, truth)) => so_far.with(truth),
        None => so_far,
    }
}

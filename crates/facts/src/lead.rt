// Facts get other ends.
ghost use Rattle.std.specs.Prelude.{◌≡◌, ◌∷◌, [], ℕ, Bool, List};
ghost use Rattle.cpe_rows.specs.Prelude.{fact_truth, Rows};
ghost use Rattle.cpe_rows.specs.declared.statement.Mode.TheVariants.{Follow};
ghost use Rattle.name_index.specs.Table.{IsNameTable, kept_at, Names};
ghost use Rattle.fact_boards.specs.level_board.Board.{AreAnswers};
ghost use Rattle.facts.specs.declared.lead.Led.{Led};
ghost use Rattle.facts.specs.Leads.{AreLedBut, ChangesTo, SameUsers};

use cpe_rows::Mode;
use fact_boards::LevelBoard;
use fact_rows::FactRows;
use name_index::NameId;
use std::slice::from_ref;

/// A fact of mode follow, and the ends that it will have.
#[derive(Drop)]
pub struct Led {
    /// The number of its name.
    pub fact: NameId,
    /// The numbers of these ends.
    pub ends: Vec<NameId>,
}

// Gives a fact its new ends, and computes its truth again.
fn lead_fact(facts: &mut FactRows, board: &LevelBoard, led: Led)
    ensures facts { (names : Names) (next : Rows) (tickets : List ℕ) (passes : ℕ → Bool) (rest : List Led) → IsNameTable names → AreAnswers board.now → AreLedBut names board.now facts.old next tickets passes (led ∷ rest) → AreLedBut names board.now facts.new next tickets passes rest }
    ensures same { SameUsers facts.old facts.new }
    ensures changes { (names : Names) (next : Rows) (tickets : List ℕ) (passes : ℕ → Bool) (rest : List Led) → IsNameTable names → AreAnswers board.now → AreLedBut names board.now facts.old next tickets passes (led ∷ rest) → ChangesTo facts.old facts.new (λ q. fact_truth next Follow (kept_at names q).name) }
{
    let Led { fact, ends } = led;
    facts.set_ends(fact, ends);
    facts.refresh_facts(Mode::Follow, from_ref(&fact), board);
}

// Gives facts their new ends, to which they are linked already, and computes their truths again. It takes no memory.
pub(crate) fn lead_facts(facts: &mut FactRows, board: &LevelBoard, all: Vec<Led>)
    ensures facts { (names : Names) (next : Rows) (tickets : List ℕ) (passes : ℕ → Bool) → IsNameTable names → AreAnswers board.now → AreLedBut names board.now facts.old next tickets passes all.items → AreLedBut names board.now facts.new next tickets passes [] }
    ensures same { SameUsers facts.old facts.new }
    ensures changes { (names : Names) (next : Rows) (tickets : List ℕ) (passes : ℕ → Bool) → IsNameTable names → AreAnswers board.now → AreLedBut names board.now facts.old next tickets passes all.items → ChangesTo facts.old facts.new (λ q. fact_truth next Follow (kept_at names q).name) }
{
    for led in all {
        lead_fact(facts, board, led);
    }
}

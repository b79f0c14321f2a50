// The truths of facts that lead to marked names are computed again, and the marks are cleared.
ghost use Rattle.std.specs.Prelude.{◌≡◌, ◌||◌, ℕ, List};
ghost use Rattle.cpe_rows.specs.Prelude.{Rows};
ghost use Rattle.cpe_rows.specs.declared.statement.Mode.TheVariants.{Plain, Follow};
ghost use Rattle.name_index.specs.Table.{IsNameTable, Names};
ghost use Rattle.fact_boards.specs.Kept.{AreSettled};
ghost use Rattle.fact_rows.specs.Facts.{truth_differs, has_end_of_fact, truth_of_fact};
ghost use Rattle.fact_rows.specs.Calls.{SameFacts};
ghost use Rattle.facts.specs.Facts.{AreChanges, FactsBut, FactsOf, is_touched};

use cpe_rows::Mode;
use fact_boards::KeptFacts;
use fact_rows::FactRows;

// Refreshes the facts of mode plain that lead to marked names.
fn refresh_plain(boards: &KeptFacts, plain: &mut FactRows)
    ensures facts { (names : Names) (rows : Rows) (tickets : List ℕ) → IsNameTable names → FactsBut names boards.now.plain plain.old rows tickets Plain (is_touched Plain boards.now.plain plain.old) → FactsOf names boards.now.plain plain.new rows tickets Plain }
    ensures same { SameFacts plain.old plain.new }
    ensures changed { (q : ℕ) → has_end_of_fact plain.new.changed q ≡ (has_end_of_fact plain.old.changed q || truth_differs (truth_of_fact plain.old q) (truth_of_fact plain.new q)) }
{
    boards.lawful();
    plain.refresh_facts(
        Mode::Plain,
        boards.marks(Mode::Plain),
        boards.board(Mode::Plain),
    );
}

// Refreshes the facts of mode follow that lead to marked names.
fn refresh_follow(boards: &KeptFacts, follow: &mut FactRows)
    ensures facts { (names : Names) (rows : Rows) (tickets : List ℕ) → IsNameTable names → FactsBut names boards.now.follow follow.old rows tickets Follow (is_touched Follow boards.now.follow follow.old) → FactsOf names boards.now.follow follow.new rows tickets Follow }
    ensures same { SameFacts follow.old follow.new }
    ensures changed { (q : ℕ) → has_end_of_fact follow.new.changed q ≡ (has_end_of_fact follow.old.changed q || truth_differs (truth_of_fact follow.old q) (truth_of_fact follow.new q)) }
{
    boards.lawful();
    follow.refresh_ends(boards.marks(Mode::Follow), boards.board(Mode::Follow));
}

// Refreshes those of both modes, and clears the marks. It takes no memory.
pub(crate) fn settle(boards: &mut KeptFacts, plain: &mut FactRows, follow: &mut FactRows)
    ensures plain { (names : Names) (rows : Rows) (tickets : List ℕ) → IsNameTable names → FactsBut names boards.old.plain plain.old rows tickets Plain (is_touched Plain boards.old.plain plain.old)
        → FactsBut names boards.old.follow follow.old rows tickets Follow (is_touched Follow boards.old.follow follow.old) → FactsOf names boards.new.plain plain.new rows tickets Plain }
    ensures follow { (names : Names) (rows : Rows) (tickets : List ℕ) → IsNameTable names → FactsBut names boards.old.plain plain.old rows tickets Plain (is_touched Plain boards.old.plain plain.old)
        → FactsBut names boards.old.follow follow.old rows tickets Follow (is_touched Follow boards.old.follow follow.old) → FactsOf names boards.new.follow follow.new rows tickets Follow }
    ensures settled { AreSettled boards.new }
    ensures same { SameFacts plain.old plain.new }
    ensures same_follow { SameFacts follow.old follow.new }
    ensures changed { (q : ℕ) → has_end_of_fact plain.new.changed q ≡ (has_end_of_fact plain.old.changed q || truth_differs (truth_of_fact plain.old q) (truth_of_fact plain.new q)) }
    ensures changed_follow { (q : ℕ) → has_end_of_fact follow.new.changed q ≡ (has_end_of_fact follow.old.changed q || truth_differs (truth_of_fact follow.old q) (truth_of_fact follow.new q)) }
{
    refresh_plain(boards, plain);
    refresh_follow(boards, follow);
    boards.settle();
}

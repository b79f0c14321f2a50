//! A law of what is written: it means what was read. The function does nothing; its clause is the law.
ghost use Rattle.std.specs.Prelude.{◌≡◌, List, ℕ, Option};
ghost use Rattle.std.specs.List.{AllByRecursion};
ghost use Rattle.line_replies.specs.cpe_io.Lines.{lines};
ghost use Rattle.line_replies.specs.line_session.Folding.{folded_lines};
ghost use Rattle.line_replies.specs.line_session.Task.{speech, spoken};
ghost use Rattle.cpe_rows.specs.Rows.{Rows};
ghost use Rattle.cpe_records.specs.Edited.{line_edited};
ghost use Rattle.convert_lines.specs.Convert.{convert_session};
ghost use Rattle.convert_lines.specs.Growing.{IsGrown, IsWhole};

use record_writer::written_is_read;

/// Converted lines leave the same rows as the lines themselves, if no line is refused because its form is too long.
/// It doesn't matter which rows there were before. Each record is read again from its form, and the line of a refusal
/// is no record. The law asks that each record is whole (`IsWhole`); each record that the program reads is whole.
pub fn written_rows_stay()
    ensures { (rows : Rows) (ls : List (Option (List ℕ))) → AllByRecursion (λ line. ¬ IsGrown line) ls → AllByRecursion IsWhole ls
        → folded_lines line_edited rows (lines (spoken (speech convert_session tt) ls).text) ≡ folded_lines line_edited rows ls }
{
    written_is_read();
}

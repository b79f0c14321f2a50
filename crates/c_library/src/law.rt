// What the calls of a session write together.
ghost use Rattle.std.specs.Prelude.{◌≡◌, [], ℕ, List, Option};
ghost use Rattle.line_session.specs.cpe_io.Lines.{lines};
ghost use Rattle.line_session.specs.Task.{Says, Transcript};
ghost use Rattle.cpe_command.specs.Meaning.{meaning};
ghost use Rattle.c_library.specs.Joined.{AreLines, IsAnswered, answers, bytes_of};
ghost use Rattle.c_library.specs.Talks.{written_before};

/// The answers to the lines of a session, and then the answer at its end, are together what a run writes for these
/// lines, each with its newline. Three contracts give what the law needs. At first the session would write what the
/// run writes (`Opens`). Each call answers one of the lines (`TakesLine`). The last call writes what the session
/// would write if no line follows (`TakesEnd`).
pub fn joined_answers()
    ensures { (words : List (List ℕ)) (first last : List (Option (List ℕ)) → Transcript) (said : List (List ℕ × List ℕ))
        → ((bytes : List ℕ) → Says (meaning words).task bytes (first (lines bytes))) → AreLines said → IsAnswered said first last
        → Says (meaning words).task (bytes_of said) (written_before (answers said) (last [])) }
{}

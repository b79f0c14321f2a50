// The beginning of a session.
ghost use Rattle.std.specs.Prelude.{◌≡◌, ◌∷◌, [], true, false, MatchOption, bytes_eq};
ghost use Rattle.cpe_command.specs.Command.{are, command_of};
ghost use Rattle.cpe_command.specs.Meaning.{meaning};
ghost use Rattle.c_library.specs.Beginning.{answers_lines, speaking_for, Opens, words_of};

use crate::speaking::Speaking;
use crate::talk::{Phase, Talk};
use cpe_command::{Advisories, Command, Engine, NameCommand, Names, read_word};
use line_session::Progress;
use std::alloc::Global;

/// A session of the command that the words name, before its first line; or `None` if they name no command that
/// answers lines.
pub(crate) fn begin(alloc: Global, word: &[u8], second: &[u8]) -> Option<Talk>
    ensures { MatchOption result (answers_lines (meaning (words_of word.now second.now)).task ≡ false)
        (λ talk. (answers_lines (meaning (words_of word.now second.now)).task ≡ true) × Opens (words_of word.now second.now) talk) }
{
    match speaking_of(alloc, word, second) {
        Some(speaking) => Some(Talk {
            speaking,
            progress: Progress::new(alloc),
            phase: Phase::Open,
        }),
        None => None,
    }
}

// The command that answers the lines, with its state before the first line.
fn speaking_of(alloc: Global, word: &[u8], second: &[u8]) -> Option<Speaking>
    ensures { result ≡ speaking_for (command_of (words_of word.now second.now)) }
{
    match second {
        [] => of_one_word(alloc, word),
        [_, ..] => of_two_words(word, second),
    }
}

// The command that one word names, with its state before the first line.
fn of_one_word(alloc: Global, word: &[u8]) -> Option<Speaking>
    ensures { result ≡ speaking_for (command_of (word.now ∷ [])) }
{
    match read_word(word)? {
        Command::Name(command) => Some(Speaking::Name(command)),
        Command::Compare => Some(Speaking::Compare),
        Command::Records(command) => Some(Speaking::Records(command, Engine::new(alloc))),
        Command::Convert => Some(Speaking::Convert),
        Command::Advise => Some(Speaking::Advise(Advisories::new(alloc))),
        Command::Cover => Some(Speaking::Cover(Names::new(alloc))),
        // A snapshot has no lines, and generated lines are not read from the input.
        Command::Load | Command::Make(_) | Command::Drill(_) => None,
    }
}

fn of_two_words(word: &[u8], second: &[u8]) -> Option<Speaking>
    ensures { result ≡ speaking_for (command_of (word.now ∷ second.now ∷ [])) }
{
    if are_two(word, second, b"bind", b"fs") {
        Some(Speaking::Name(NameCommand::BindFs))
    } else if are_two(word, second, b"bind", b"uri") {
        Some(Speaking::Name(NameCommand::BindUri))
    } else {
        None
    }
}

fn are_two(word: &[u8], second: &[u8], first: &[u8], next: &[u8]) -> bool
    ensures { result ≡ are (word.now ∷ second.now ∷ []) (first.now ∷ next.now ∷ []) }
{
    are_equal(second, next) && are_equal(word, first)
}

fn are_equal(text: &[u8], word: &[u8]) -> bool
    ensures { result ≡ bytes_eq text.now word.now }
{
    text == word
}

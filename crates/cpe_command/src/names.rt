// What is written for a line with one name.
ghost use Rattle.std.specs.Prelude.{◌≡◌, ◌≤◌, ◌+◌, ◌*◌, Some, None, IfOk, MatchResult, length, take};
ghost use Rattle.line_session.specs.Pages.{AppendsPage};
ghost use Rattle.cpe_command.specs.Names.{name_line, other_form, name_reason_text};

use byte_room::put_byte;
use cpe_fs::write_bound;
use cpe_uri::{UNBOUND_FRAME, write_bound_uri, write_unbound_any};
use line_session::{Fill, Page, Reason, Stateless};
use std::alloc::{AllocError, Global};

/// A command whose lines have one name each: in which form the name is written.
#[derive(Clone, Copy, Debug, PartialEq, Eq)]
pub enum NameCommand {
    /// A formatted string or a URI is written as the text of its well-formed name.
    Unbind,
    /// The text of a well-formed name is written as its formatted string.
    BindFs,
    /// The text of a well-formed name is written as its URI.
    BindUri,
}

/// Why a line with one name is refused.
#[derive(Clone, Copy, Debug, PartialEq, Eq)]
pub enum NameReason {
    /// No well-formed name has this text.
    Wfn,
    /// No name has this text as its formatted string or its URI. The number is the place of the refusal.
    Name(usize),
}

impl Reason for NameReason {
    ghost text = { name_reason_text };

    fn push(&self, alloc: Global, page: &mut Page) -> Result<(), AllocError> {
        let _ = alloc;
        match self {
            NameReason::Wfn => page.push(b"wfn"),
            NameReason::Name(place) => page.push_numbered(b"name ", *place as u64),
        }
    }
}

impl Stateless for NameCommand {
    type Reason = NameReason;

    ghost says = { λ command text. name_line (other_form command text) };

    fn say(
        &self,
        alloc: Global,
        page: &mut Page,
        text: &[u8],
    ) -> Result<Option<NameReason>, AllocError> {
        let _ = alloc;
        page.with_room(&OtherForm {
            command: *self,
            text,
        })
    }
}

// The other form of the name that has this text, as a line.
#[derive(Clone, Copy)]
struct OtherForm<'t> {
    command: NameCommand,
    text: &'t [u8],
}

impl Fill for OtherForm<'_> {
    ghost use Rattle.cpe_uri.specs.declared.TheConstants.{UNBOUND_FRAME};

    type Reason = NameReason;

    ghost text = { λ form. name_line (other_form form.command form.text.now) };

    ghost need = { λ form. 3 * length form.text.now + (UNBOUND_FRAME + 1) };

    fn most(&self) -> usize {
        self.text
            .len()
            .saturating_mul(3)
            .saturating_add(UNBOUND_FRAME + 1)
    }

    fn fill(&self, room: &mut [u8], at: usize) -> Result<usize, NameReason> {
        let end = write_form(self.command, room, at, self.text)?;
        Ok(put_byte(room, end, b'\n'))
    }
}

// Writes the other form into the room. Each form has at most three bytes for each byte of the text, and the bytes of
// the frame.
fn write_form(
    command: NameCommand,
    room: &mut [u8],
    at: usize,
    text: &[u8],
) -> Result<usize, NameReason>
    requires { at + 3 * length text.now + UNBOUND_FRAME ≤ length room.old }
    ensures form { MatchResult result (λ end. AppendsPage (other_form command text.now) (take at room.old) (take end room.new) None)
        (λ reason. AppendsPage (other_form command text.now) (take at room.old) (take at room.new) (Some reason)) }
    ensures within { IfOk result (λ end. end ≤ at + 3 * length text.now + UNBOUND_FRAME) }
    ensures length { length room.new ≡ length room.old }
{
    match command {
        NameCommand::Unbind => write_unbound_any(room, at, text).map_err(NameReason::Name),
        NameCommand::BindFs => write_bound(room, at, text).ok_or(NameReason::Wfn),
        NameCommand::BindUri => write_bound_uri(room, at, text).ok_or(NameReason::Wfn),
    }
}

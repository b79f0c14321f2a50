// What a line of a name changes and writes.
ghost use Rattle.std.specs.Prelude.{◌≡◌, IfOk, OnErr, ℕ, List, option_map};
ghost use Rattle.cpe_rows.specs.cpe_name.Lower.{IsLower, lower_name};
ghost use Rattle.line_session.specs.Pages.{IsAppended};
ghost use Rattle.cover_lines.specs.Lines.{by_added, cover_session};
ghost use Rattle.cover_lines.specs.Reasons.{cover_reason_text};

use crate::fault::NamesFault;
use crate::names::Names;
use crate::reason::CoverReason;
use crate::written::pour_names;
use cpe_rows::Wfn;
use cpe_uri::{UriFault, unbind_any};
use line_session::{NumberedLine, Page, Sink, SinkFault, Speaker};
use name_index::Steps;
use std::alloc::{AllocError, Global};
use std::sync::ledger::Ledger;

/// Each line is a name: a formatted string or a URI. The name is added in lower case. At the end, the names that no
/// other covers are written.
#[derive(Clone, Copy, Debug, PartialEq, Eq)]
pub struct Cover;

impl Speaker for Cover {
    type State = Names;

    type Reason = CoverReason;

    ghost session = { λ _. cover_session };

    fn is_quiet(&self) -> bool {
        false
    }

    fn say<L: Ledger>(
        &self,
        alloc: Global,
        state: &mut Names,
        _page: &mut Page,
        line: &NumberedLine<'_>,
        _steps: &mut Steps<L>,
    ) -> Result<Option<CoverReason>, AllocError> {
        match unbind_any(alloc, line.text) {
            Ok(name) => add(state, name),
            Err(UriFault::At(place)) => Ok(Some(CoverReason::Name(place))),
            Err(UriFault::Memory) => Err(AllocError),
        }
    }

    fn say_end<K: Sink, L: Ledger>(
        &self,
        alloc: Global,
        state: &Names,
        page: &mut Page,
        sink: &mut K,
        steps: &mut Steps<L>,
    ) -> Result<(), SinkFault> {
        match state.reduce(alloc, steps) {
            Ok(names) => pour_names(alloc, &names, page, sink),
            Err(_) => Err(SinkFault::Memory),
        }
    }
}

// The name in lower case, in the same memory.
fn in_lower_case(name: Wfn) -> Wfn
    ensures name { result ≡ lower_name name }
    ensures lower { IsLower result }
{
    name.into_lower()
}

// Adds a name in lower case, and drops the original. If the name is refused, the result is the reason.
#[inline(never)]
fn add(names: &mut Names, name: Wfn) -> Result<Option<CoverReason>, AllocError>
    ensures said { IfOk result (λ refused. (page : List ℕ) → IsAppended (by_added names.old (lower_name name)) names.old names.new page page (option_map cover_reason_text refused)) }
    ensures err { OnErr result (names.new ≡ names.old) }
{
    let lower = in_lower_case(name);
    let added = add_lower(names, &lower);
    drop(lower);
    added
}

fn add_lower(names: &mut Names, name: &Wfn) -> Result<Option<CoverReason>, AllocError>
    requires { IsLower name.now }
    ensures said { IfOk result (λ refused. (page : List ℕ) → IsAppended (by_added names.old name.now) names.old names.new page page (option_map cover_reason_text refused)) }
    ensures err { OnErr result (names.new ≡ names.old) }
{
    match names.add(name) {
        Ok(()) => Ok(None),
        Err(NamesFault::Full(which)) => Ok(Some(CoverReason::Full(which))),
        Err(NamesFault::Memory) => Err(AllocError),
    }
}

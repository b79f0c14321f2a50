// What a line of a record changes and writes.
ghost use Rattle.std.specs.Prelude.{◌≡◌, ◌++◌, [], ℕ, List, true, None, IfOk, OnErr, option_map};
ghost use Rattle.line_session.specs.Prelude.{IsAppended, StepsWithin};
ghost use Rattle.advise_ranges.specs.Prelude.{advice_answer, is_valid_advice_edit, is_valid_advice_query, advice_looks, advise_step};
ghost use Rattle.advise_ranges.specs.Lines.{advice_reply_text};
ghost use Rattle.advise_ranges.specs.Reasons.{advice_reason_text};
ghost use Rattle.advise_ranges.specs.Records.{advice_step, advice_session};

use crate::advisories::Advisories;
use crate::edit::{AdviceEdit, AdviceFault, AdviceQuery};
use crate::member::AdviceReadFault;
use crate::read::{Advice, read_advice};
use crate::reason::AdviceReason;
use crate::reply::push_reply;
use line_session::{NumberedLine, Page, Sink, SinkFault, Speaker};
use name_index::Steps;
use std::alloc::{AllocError, Global};
use std::sync::ledger::Ledger;

/// Each line is a record: an edit changes the items and advisories, and a question is answered from them.
#[derive(Clone, Copy, Debug, PartialEq, Eq)]
pub struct Advise;

impl Speaker for Advise {
    type State = Advisories;

    type Reason = AdviceReason;

    ghost session = { λ _. advice_session };

    fn is_quiet(&self) -> bool {
        false
    }

    fn say<L: Ledger>(
        &self,
        alloc: Global,
        state: &mut Advisories,
        page: &mut Page,
        line: &NumberedLine<'_>,
        steps: &mut Steps<L>,
    ) -> Result<Option<AdviceReason>, AllocError> {
        match read_advice(alloc, line.text) {
            Ok(Advice::Edit(edit)) => make_edit(state, edit, steps),
            Ok(Advice::Query(query)) => say_answer(alloc, state, page, query, steps),
            Err(AdviceReadFault::Memory) => Err(AllocError),
            Err(fault) => Ok(Some(AdviceReason::Unread(fault))),
        }
    }

    fn say_end<K: Sink, L: Ledger>(
        &self,
        _alloc: Global,
        _state: &Advisories,
        _page: &mut Page,
        _sink: &mut K,
        _steps: &mut Steps<L>,
    ) -> Result<(), SinkFault> {
        Ok(())
    }
}

// Makes an edit, or returns why it is refused. An edit that is made writes nothing.
#[inline(never)]
fn make_edit<L: Ledger>(
    advisories: &mut Advisories,
    edit: AdviceEdit,
    steps: &mut Steps<L>,
) -> Result<Option<AdviceReason>, AllocError>
    requires { is_valid_advice_edit edit ≡ true }
    ensures said { IfOk result (λ refused.
        (page : List ℕ) → IsAppended (advice_step (advise_step advisories.old edit)) advisories.old advisories.new page page (option_map advice_reason_text refused)) }
    ensures err { OnErr result (advisories.new ≡ advisories.old) }
    ensures counts { StepsWithin steps.old steps.new 0 }
{
    match advisories.apply(edit, steps) {
        Ok(()) => Ok(None),
        Err(AdviceFault::Memory) => Err(AllocError),
        Err(fault) => Ok(Some(AdviceReason::Refused(fault))),
    }
}

// Appends the answer to a question to the page.
#[inline(never)]
fn say_answer<L: Ledger>(
    alloc: Global,
    advisories: &Advisories,
    page: &mut Page,
    query: AdviceQuery,
    steps: &mut Steps<L>,
) -> Result<Option<AdviceReason>, AllocError>
    requires { is_valid_advice_query query ≡ true }
    ensures said { IfOk result (λ refused. (refused ≡ None) × (page.new ≡ page.old ++ advice_reply_text (advice_answer advisories.now query))) }
    ensures counts { StepsWithin steps.old steps.new (advice_looks advisories.now query) }
{
    match advisories.answer(alloc, query, steps) {
        Ok(reply) => {
            push_reply(alloc, page, &reply)?;
            Ok(None)
        }
        Err(_) => Err(AllocError),
    }
}

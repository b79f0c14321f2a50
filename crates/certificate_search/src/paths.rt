// Paths from names to their ends.
ghost use Rattle.std.specs.Prelude.{◌≡◌, ◌∷◌, [], ◌++◌, ◌&&◌, IfOk, OnOk, map};
ghost use Rattle.cpe_rows.specs.Prelude.{is_same};
ghost use Rattle.certificate_check.specs.Leading.{followed, is_end_of, next_of};
ghost use Rattle.certificate_check.specs.Seen.{with_seen_name};
ghost use Rattle.certificate_search.specs.Choices.{trace_to};
ghost use Rattle.certificate_search.specs.Steps.{lent_step, step_to, with_step};

use crate::rows::ExplainedRows;
use certificate_check::NameSet;
use cpe_rows::{List, Memory, Mode, Wfn, is_same};
use std::alloc::Global;

/// A name, and those of its successors that are still to be tried.
#[derive(Clone, Copy)]
pub(crate) struct StepRef<'a> {
    name: &'a Wfn,
    left: &'a [Wfn],
}

// Whether the name is `to`, and an end.
fn is_end_at<R: ExplainedRows>(rows: &R, name: &Wfn, to: &Wfn) -> bool
    ensures { result ≡ (is_same name.now to.now && is_end_of (R.rows rows.now).entries name.now) }
{
    is_same(name, to) && rows.deprecation_of(name).is_none()
}

// The successors of the entry of a name, if it is deprecated; otherwise none.
fn next_names<'a, R: ExplainedRows>(rows: &'a R, name: &Wfn) -> &'a [Wfn]
    ensures { result.now ≡ next_of (R.rows rows.now).entries name.now }
{
    match rows.deprecation_of(name) {
        Some(deprecation) => deprecation.successors.as_slice(),
        None => &[],
    }
}

// Appends the step to a name, with all its successors still to be tried.
fn push_step<'a, R: ExplainedRows>(
    rows: &'a R,
    steps: &mut Vec<StepRef<'a>>,
    name: &'a Wfn,
) -> Result<(), Memory>
    ensures { OnOk result (map lent_step steps.new.items ≡ map lent_step steps.old.items ++ step_to (R.rows rows.now).entries name.now ∷ []) }
{
    let left = next_names(rows, name);
    steps.push(StepRef { name, left })?;
    Ok(())
}

// Appends the step to a name, unless the name was seen before.
fn try_name<'a, R: ExplainedRows>(
    rows: &'a R,
    steps: &mut Vec<StepRef<'a>>,
    seen: &mut NameSet<'a>,
    name: &'a Wfn,
) -> Result<(), Memory>
    ensures steps { OnOk result (map lent_step steps.new.items ≡ with_step (R.rows rows.now).entries seen.old (map lent_step steps.old.items) name.now) }
    ensures seen { OnOk result (seen.new ≡ with_seen_name seen.old name.now) }
{
    if seen.insert(name)? {
        push_step(rows, steps, name)?;
    }
    Ok(())
}

fn alone(alloc: Global, name: &Wfn) -> Result<List<Wfn>, Memory>
    ensures { IfOk result (λ names. names ≡ name.now ∷ []) }
{
    let mut names = List::with_room(alloc, 1)?;
    names.push(name.copy(alloc)?)?;
    Ok(names)
}

// The names of the steps, and then the last name.
fn names_of(alloc: Global, steps: &[StepRef<'_>], last: &Wfn) -> Result<List<Wfn>, Memory>
    ensures { IfOk result (λ names. names ≡ map (λ s. s.name.now) steps.now ++ last.now ∷ []) }
{
    let mut names = List::new(alloc);
    for step in steps {
        names.push(step.name.copy(alloc)?)?;
    }
    names.push(last.copy(alloc)?)?;
    Ok(names)
}

// The path from a name to an end of it. Each step is to the first successor that has this end. The search tries the
// successors of a name in their order, and turns back after the last. A name that was seen isn't tried again. It can't
// lead to this end, because deprecations have no cycle.
fn path<R: ExplainedRows>(
    alloc: Global,
    rows: &R,
    from: &Wfn,
    to: &Wfn,
) -> Result<List<Wfn>, Memory>
    ensures { IfOk result (λ names. names ≡ trace_to (R.rows rows.now).entries to.now from.now) }
{
    rows.lawful();
    let mut seen = NameSet::new(alloc);
    let mut steps = Vec::new(alloc);
    push_step(rows, &mut steps, from)?;
    while let Some(step) = steps.pop() {
        match step.left {
            [next, left @ ..] => {
                steps.push(StepRef {
                    name: step.name,
                    left,
                })?;
                try_name(rows, &mut steps, &mut seen, next)?;
            }
            [] => {
                if is_end_at(rows, step.name, to) {
                    return names_of(alloc, &steps, step.name);
                }
            }
        }
    }
    alone(alloc, from)
}

/// The path from a name to an end of it, in a mode. In mode plain it is the name alone.
///
/// # Errors
/// Only that memory ran out.
///
/// Each name of the chain is visited at most once. So time and memory grow with the size of the chain.
pub(crate) fn trace<R: ExplainedRows>(
    alloc: Global,
    rows: &R,
    mode: Mode,
    from: &Wfn,
    to: &Wfn,
) -> Result<List<Wfn>, Memory>
    ensures { IfOk result (λ names. names ≡ trace_to (followed (R.rows rows.now) mode) to.now from.now) }
{
    match mode {
        Mode::Plain => alone(alloc, from),
        Mode::Follow => path(alloc, rows, from, to),
    }
}

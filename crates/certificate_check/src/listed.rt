// The truth of a fact reference, computed from lists of the entries and of the items.
ghost use Rattle.std.specs.Prelude.{◌≡◌, ◌∷◌, [], map, fold, IfOk, OnOk, if◌then◌else◌, option_copied};
ghost use Rattle.std.specs.List.{list_any};
ghost use Rattle.cpe_rows.specs.Prelude.{covers, fact_truth, is_followed, maybe, Rows, truth, Values};
ghost use Rattle.cpe_rows.specs.Lent.{entry_lent};
ghost use Rattle.certificate_check.specs.Leading.{deprecation_of, next_of, is_end_of, AreEndsOfName, AreLinkedEntries};
ghost use Rattle.certificate_check.specs.Relates.{related};
ghost use Rattle.certificate_check.specs.Seen.{with_seen_name};

use crate::name_set::NameSet;
use crate::relates::Relates;
use cpe_rows::{Deprecation, EntryRef, Memory, Mode, Truth, Wfn, is_same};
use std::alloc::Global;

// The deprecation of the entry of this name. None if the name has no entry, or if the entry isn't deprecated.
fn deprecation_in<'a>(entries: &[EntryRef<'a>], name: &Wfn) -> Option<&'a Deprecation>
    ensures { option_copied result ≡ deprecation_of (map entry_lent entries.now) name.now }
{
    for entry in entries {
        if is_same(name, entry.name) {
            return entry.deprecation;
        }
    }
    None
}

// Visits a name: appends its successors to `met`. If the name has no deprecated entry, adds the name to `ends`.
fn visit<'a>(
    entries: &[EntryRef<'a>],
    name: &'a Wfn,
    met: &mut NameSet<'a>,
    ends: &mut NameSet<'a>,
) -> Result<(), Memory>
    ensures met { OnOk result (met.new ≡ fold with_seen_name met.old (next_of (map entry_lent entries.now) name.now)) }
    ensures ends { OnOk result (ends.new ≡ (if is_end_of (map entry_lent entries.now) name.now then with_seen_name ends.old name.now else ends.old)) }
{
    match deprecation_in(entries, name) {
        Some(deprecation) => met.insert_all(deprecation.successors.as_slice()),
        None => {
            ends.insert(name)?;
            Ok(())
        }
    }
}

// The ends of the name in `met`. Appends each name to which deprecations lead to `met`, once, and visits all names of
// `met` in order.
fn ends_met<'a>(
    alloc: Global,
    entries: &[EntryRef<'a>],
    met: &mut NameSet<'a>,
) -> Result<NameSet<'a>, Memory>
    requires { AreLinkedEntries (map entry_lent entries.now) }
    ensures { IfOk result (λ ends. (n : Values) → met.old ≡ n ∷ [] → AreEndsOfName (map entry_lent entries.now) n ends) }
{
    let mut ends = NameSet::new(alloc);
    let mut k = 0;
    while let Some(name) = met.get(k) {
        visit(entries, name, met, &mut ends)?;
        k += 1;
    }
    Ok(ends)
}

// The ends of a name.
fn ends_of<'a>(
    alloc: Global,
    entries: &[EntryRef<'a>],
    name: &'a Wfn,
) -> Result<NameSet<'a>, Memory>
    requires { AreLinkedEntries (map entry_lent entries.now) }
    ensures { IfOk result (λ ends. AreEndsOfName (map entry_lent entries.now) name.now ends) }
{
    let mut met = NameSet::new(alloc);
    met.insert(name)?;
    ends_met(alloc, entries, &mut met)
}

// Whether an end of the fact has the relation to an end of the item.
fn is_met<'a>(
    alloc: Global,
    entries: &[EntryRef<'a>],
    relates: Relates,
    fact_ends: &NameSet<'a>,
    item: &'a Wfn,
) -> Result<bool, Memory>
    requires { AreLinkedEntries (map entry_lent entries.now) }
    ensures { IfOk result (λ met. (fact : Values) → AreEndsOfName (map entry_lent entries.now) fact fact_ends.now → met ≡ is_followed (related relates) (map entry_lent entries.now) fact item.now) }
{
    let item_ends = ends_of(alloc, entries, item)?;
    Ok(fact_ends.has_met(relates, &item_ends))
}

// Whether an end of the name has the relation to an end of some item.
fn finds_item<'a>(
    alloc: Global,
    entries: &[EntryRef<'a>],
    items: &[&'a Wfn],
    relates: Relates,
    name: &'a Wfn,
) -> Result<bool, Memory>
    requires { AreLinkedEntries (map entry_lent entries.now) }
    ensures { IfOk result (λ found. found ≡ list_any (is_followed (related relates) (map entry_lent entries.now) name.now) (map (λ i. i.now) items.now)) }
{
    let ends = ends_of(alloc, entries, name)?;
    for item in items {
        if is_met(alloc, entries, relates, &ends, *item)? {
            return Ok(true);
        }
    }
    Ok(false)
}

// The truth of a fact reference, by the ends of its name and of the items.
fn truth_by_ends<'a>(
    alloc: Global,
    entries: &[EntryRef<'a>],
    items: &[&'a Wfn],
    name: &'a Wfn,
) -> Result<Truth, Memory>
    requires { AreLinkedEntries (map entry_lent entries.now) }
    ensures { IfOk result (λ tested. tested ≡ truth (list_any (is_followed covers (map entry_lent entries.now) name.now) (map (λ i. i.now) items.now)) (list_any (is_followed maybe (map entry_lent entries.now) name.now) (map (λ i. i.now) items.now))) }
{
    if finds_item(alloc, entries, items, Relates::Covers, name)? {
        return Ok(Truth::True);
    }
    if finds_item(alloc, entries, items, Relates::MayCover, name)? {
        return Ok(Truth::Unknown);
    }
    Ok(Truth::False)
}

/// The truth of a fact reference in rows with these entries and items. The entries are searched for each name to which
/// deprecations lead from the fact or from an item.
///
/// # Errors
/// Only if memory runs out.
pub(crate) fn truth_in<'a>(
    alloc: Global,
    mode: Mode,
    entries: &[EntryRef<'a>],
    items: &[&'a Wfn],
    name: &'a Wfn,
) -> Result<Truth, Memory>
    requires { AreLinkedEntries (map entry_lent entries.now) }
    ensures { IfOk result (λ tested. (rows : Rows) → rows.entries ≡ map entry_lent entries.now → rows.items ≡ map (λ i. i.now) items.now → tested ≡ fact_truth rows mode name.now) }
{
    match mode {
        Mode::Plain => truth_by_ends(alloc, &[], items, name),
        Mode::Follow => truth_by_ends(alloc, entries, items, name),
    }
}

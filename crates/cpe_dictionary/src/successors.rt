// The successors of a deprecation, by the numbers of their entries.
ghost use Rattle.std.specs.Prelude.{◌≡◌, ◌∷◌, [], ◌≤◌, IfOk, IfErr, None, Option, Some, length, nat_eq, not, option_map, position};
ghost use Rattle.std.specs.List.{list_any};
ghost use Rattle.cpe_rows.specs.Faults.{is_count, place_of, repeated_from, successor_faults};
ghost use Rattle.cpe_rows.specs.Prelude.{first_some, is_named, IsCause, Values};
ghost use Rattle.cpe_rows.specs.declared.limits.TheConstants.{MOST_SUCCESSORS};
ghost use Rattle.cpe_rows.specs.declared.entry.Note.{Note};
ghost use Rattle.cpe_rows.specs.declared.fault.EditFault.TheVariants as fault;
ghost use Rattle.cpe_dictionary.specs.Numbers.{numbers_of};
ghost use Rattle.cpe_dictionary.specs.Causes.{deprecation_causes};
ghost use Rattle.cpe_dictionary.specs.Plans.{AreSuccessors, IsAllowed};

use crate::by_number::{edits_are_changes, edits_by_number, faults_by_number};
use crate::dictionary::Dictionary;
use cpe_rows::{Deprecation, EditFault, Kind, List, MOST_SUCCESSORS, Wfn};
use std::alloc::Global;

/// Whether a deprecation of this kind may have this number of successors.
pub(crate) fn is_count(kind: Kind, count: usize) -> bool
    ensures { result ≡ is_count kind count }
{
    match kind {
        Kind::NameRemoval => count == 0,
        Kind::NameCorrection | Kind::AdditionalInformation => {
            1 <= count && count <= MOST_SUCCESSORS
        }
    }
}

// The numbers of the entries that have these names.
fn find_numbers(
    alloc: Global,
    dictionary: &Dictionary,
    names: &[Wfn],
) -> Result<List<u32>, EditFault>
    requires { length names.now ≤ MOST_SUCCESSORS }
    ensures ok { IfOk result (λ ks. place_of (λ n. not (list_any (is_named n) dictionary.now)) names.now ≡ None) }
    ensures numbers { IfOk result (λ ks. ks ≡ numbers_of dictionary.now names.now) }
    ensures err { IfErr result (λ f.
        IsCause f (option_map fault.UnknownSuccessor (place_of (λ n. not (list_any (is_named n) dictionary.now)) names.now))) }
{
    let mut numbers = List::new(alloc);
    let mut place = 0;
    for name in names {
        place += 1;
        match dictionary.number_of(name) {
            Some(number) => numbers.push(number)?,
            None => return Err(EditFault::UnknownSuccessor(place)),
        }
    }
    Ok(numbers)
}

/// The place, from 1, of the first number that is equal to an earlier one.
pub(crate) fn find_repeated(numbers: &[u32]) -> Option<u32>
    requires { length numbers.now ≤ MOST_SUCCESSORS }
    ensures { result ≡ repeated_from nat_eq [] 1 numbers.now }
{
    let mut place = 0;
    for number in numbers {
        if numbers[..place].contains(number) {
            return Some(place as u32 + 1);
        }
        place += 1;
    }
    None
}

// The numbers of the successors of a deprecation, in a form that the graph can check.
fn find_different(
    alloc: Global,
    dictionary: &Dictionary,
    deprecation: &Deprecation,
) -> Result<List<u32>, EditFault>
    ensures ok { IfOk result (λ ks. AreSuccessors dictionary.now deprecation.now ks) }
    ensures err { IfErr result (λ f. (n : Values) (note : Option Note) → IsCause f (first_some (deprecation_causes dictionary.now n deprecation.now note))) }
{
    edits_by_number();
    edits_are_changes();
    faults_by_number();
    let names = deprecation.successors.as_slice();
    if !is_count(deprecation.kind, names.len()) {
        return Err(EditFault::BadCount);
    }
    let numbers = find_numbers(alloc, dictionary, names)?;
    if let Some(place) = find_repeated(numbers.as_slice()) {
        return Err(EditFault::RepeatedSuccessor(place));
    }
    Ok(numbers)
}

/// The numbers of the successors of a deprecation of the entry that has this name and this number.
///
/// # Errors
/// The first fault of the deprecation, or [`EditFault::Memory`] if memory runs out.
pub(crate) fn find_successors(
    alloc: Global,
    dictionary: &Dictionary,
    name: &Wfn,
    number: u32,
    deprecation: &Deprecation,
) -> Result<List<u32>, EditFault>
    requires { position (is_named name.now) dictionary.now ≡ Some number }
    ensures numbers { IfOk result (λ ks. ks ≡ numbers_of dictionary.now deprecation.now.successors) }
    ensures allowed { IfOk result (λ ks. IsAllowed dictionary.now number (Some ks)) }
    ensures ok { IfOk result (λ ks. (note : Option Note) → first_some (deprecation_causes dictionary.now name.now deprecation.now note) ≡ None) }
    ensures err { IfErr result (λ f. (note : Option Note) → IsCause f (first_some (deprecation_causes dictionary.now name.now deprecation.now note))) }
{
    edits_by_number();
    edits_are_changes();
    dictionary.lawful();
    faults_by_number();
    let numbers = find_different(alloc, dictionary, deprecation)?;
    dictionary.check(number, Some(numbers.as_slice()))?;
    Ok(numbers)
}

// Rows that an engine takes over: its entries get their deprecations all at once.
ghost use Rattle.std.specs.Prelude.{◌≡◌, ◌+◌, IfErr, IfOk, OnOk, length, map};
ghost use Rattle.cpe_rows.specs.Prelude.{IsLawful};
ghost use Rattle.cpe_rows.specs.Weight.{total_weight};
ghost use Rattle.row_weight.specs.Capped.{capped};
ghost use Rattle.cpe_engine.specs.Adopting.{given_weight, IsBare, with_deprecations};
ghost use Rattle.engine_edits.specs.Parts.{AreLawfulParts, rows_in};

use crate::engine::Engine;
use cpe_rows::{Deprecation, List, MOST_WEIGHT};
use engine_edits::EngineParts;
use row_weight::with_deprecation;
use verdicts::FillFault;

/// Why rows can't be taken over.
#[derive(Clone, Copy, Debug, PartialEq, Eq)]
pub enum AdoptFault {
    /// The rows aren't lawful.
    Unlawful,
    /// Memory ran out.
    Memory,
}

impl Engine {
    /// The engine after each entry gets the deprecation at its place in the list, or none. Notes are unchanged. So an
    /// engine takes over lawful rows from elsewhere. Single edits might be refused for what entries lead to between two
    /// edits.
    ///
    /// The engine has only active entries, and the list has one place for each. Time is proportional to the number of
    /// entries and successors.
    ///
    /// # Errors
    /// [`AdoptFault::Unlawful`] if the rows would not be lawful; or that memory ran out. The engine is then dropped.
    pub fn deprecate_all(
        self,
        deprecations: List<Option<Deprecation>>,
    ) -> Result<Engine, AdoptFault>
        requires bare { IsBare self }
        requires even { length deprecations ≡ length self.entries }
        ensures ok { IfOk result (λ e. e ≡ with_deprecations self deprecations) }
        ensures unlawful { IfErr result (λ f. f ≡ AdoptFault.Unlawful → IsLawful (with_deprecations self deprecations) → ⊥) }
    {
        let Engine { alloc, mut parts } = self;
        match deprecate_all(&mut parts, deprecations) {
            Ok(()) => Ok(Engine { alloc, parts }),
            Err(fault) => Err(discard(parts, fault)),
        }
    }
}

// Drops the parts of an engine whose rows can't be taken over, and returns the given fault.
fn discard(parts: EngineParts, fault: AdoptFault) -> AdoptFault
    ensures { result ≡ fault }
{
    drop(parts);
    fault
}

// Gives each entry the deprecation at its place in the list, or none.
fn deprecate_all(
    parts: &mut EngineParts,
    deprecations: List<Option<Deprecation>>,
) -> Result<(), AdoptFault>
    requires kept { AreLawfulParts parts.old }
    requires bare { IsBare (rows_in parts.old) }
    requires even { length deprecations ≡ length (rows_in parts.old).entries }
    ensures kept { OnOk result (AreLawfulParts parts.new) }
    ensures ok { OnOk result (rows_in parts.new ≡ with_deprecations (rows_in parts.old) deprecations) }
    ensures unlawful { IfErr result (λ f. f ≡ AdoptFault.Unlawful → IsLawful (with_deprecations (rows_in parts.old) deprecations) → ⊥) }
{
    verdicts::law::entries_alone_have_no_verdict();
    let weight = with_all(parts.weight, deprecations.as_slice());
    if weight > MOST_WEIGHT {
        drop(deprecations);
        return Err(AdoptFault::Unlawful);
    }
    match parts.registry.deprecate_all(deprecations) {
        Ok(()) => {
            parts.registry.dictionary().lawful();
            parts.weight = weight;
            Ok(())
        }
        Err(FillFault::Unlawful) => Err(AdoptFault::Unlawful),
        Err(FillFault::Memory) => Err(AdoptFault::Memory),
    }
}

// The given weight plus the weight of each of these deprecations, or the largest number if the sum is larger.
fn with_all(weight: u64, deprecations: &[Option<Deprecation>]) -> u64
    ensures { result ≡ capped (weight + total_weight (map given_weight deprecations.now)) }
{
    let mut sum = weight;
    for deprecation in deprecations {
        sum = with_given(sum, deprecation);
    }
    sum
}

// The given weight plus the weight of one deprecation, or the largest number if the sum is larger.
fn with_given(weight: u64, deprecation: &Option<Deprecation>) -> u64
    ensures { result ≡ capped (weight + given_weight deprecation.now) }
{
    match deprecation {
        Some(deprecation) => with_deprecation(weight, deprecation),
        None => weight,
    }
}

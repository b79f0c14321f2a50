// Deprecations in memory of their own.
ghost use Rattle.std.specs.Prelude.{◌≡◌, IfOk};

use cpe_rows::Memory;
use snapshot_bytes::PlacedDeprecation;
use std::alloc::Global;
use std::marker::Model;

/// A deprecation in memory of its own. So a list with one or none for each entry is small.
///
/// Contracts see it as the deprecation.
#[derive(Drop)]
pub(crate) struct BoxedDeprecation {
    placed: Box<PlacedDeprecation>,
}

impl Model for BoxedDeprecation {
    ghost use Rattle.snapshot_bytes.specs.declared.rows.PlacedDeprecation.{PlacedDeprecation as PlacedRow};

    ghost Value = { PlacedRow };

    ghost view = { λ b. b.placed.value };
}

impl BoxedDeprecation {
    /// The deprecation, moved to memory of its own.
    ///
    /// # Errors
    /// Only that memory ran out. The deprecation is then dropped.
    pub(crate) fn new(alloc: Global, placed: PlacedDeprecation) -> Result<BoxedDeprecation, Memory>
        ensures { IfOk result (λ b. b ≡ placed) }
    {
        match Box::new(alloc, placed) {
            Ok(placed) => Ok(BoxedDeprecation { placed }),
            Err(_) => Err(Memory),
        }
    }

    /// The deprecation. Allocates: no.
    pub(crate) fn as_placed(&self) -> &PlacedDeprecation
        ensures { result.now ≡ self.now }
    {
        &self.placed
    }
}

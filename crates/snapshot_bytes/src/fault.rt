// Why rows can't be read from bytes.
ghost use Rattle.std.specs.Prelude.{◌≡◌};
ghost use Rattle.snapshot_bytes.specs.declared.fault.LoadFault.TheVariants.{Memory as OutOfMemory};

use cpe_rows::Memory;

/// Why rows can't be read from bytes.
#[derive(Debug, Clone, Copy, PartialEq, Eq)]
pub enum LoadFault {
    /// The bytes are the snapshot of no rows.
    NotSnapshot,
    /// Memory ran out.
    Memory,
}

impl From<Memory> for LoadFault {
    ghost from_gives = { λ _ e. e ≡ OutOfMemory };

    fn from(_fault: Memory) -> LoadFault {
        LoadFault::Memory
    }
}

// A key for whose result all memory is allocated.
ghost use Rattle.std.specs.Prelude.{◌≡◌};

use cpe_rows::CheckKey;

/// A key for whose result all memory is allocated. It may be dropped instead of used.
#[derive(Drop)]
pub struct ReadyResult {
    pub(crate) key: CheckKey,
    // A copy of the key, if the key has no result yet.
    pub(crate) copy: Option<CheckKey>,
}

impl ReadyResult {
    /// The key.
    pub fn key(&self) -> &CheckKey
        ensures { result.now ≡ self.now.key }
    {
        &self.key
    }
}

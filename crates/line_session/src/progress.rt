// The progress of a session.
ghost use Rattle.std.specs.Prelude.{◌≡◌, [], false};

use crate::page::Page;
use std::alloc::Global;

/// The number of lines so far, whether one of them was refused, and the output that is gathered.
#[derive(Drop)]
pub struct Progress {
    pub number: u64,
    pub refused: bool,
    pub page: Page,
}

impl Progress {
    /// The progress before the first line.
    pub fn new(alloc: Global) -> Progress
        ensures number { result.number ≡ 0 }
        ensures refused { result.refused ≡ false }
        ensures page { result.page ≡ [] }
    {
        Progress {
            number: 0,
            refused: false,
            page: Page::new(alloc),
        }
    }
}

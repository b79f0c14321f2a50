// The first generated lines.
ghost use Rattle.drill_lines.specs.Generated.{generated, generated_line};

use crate::line::push_generated;
use line_session::{Page, Table};
use std::alloc::{AllocError, Global};

/// The first generated lines as records to be read, without newlines.
#[derive(Clone, Copy, Debug)]
pub struct GeneratedRecords {
    /// The number of lines.
    pub count: u32,
}

impl Table for GeneratedRecords {
    ghost count = { λ table. table.count };

    ghost text = { λ _ k. generated k };

    fn len(&self) -> usize {
        self.count as usize
    }

    fn put(&self, _alloc: Global, k: usize, page: &mut Page) -> Result<(), AllocError> {
        push_generated(page, k)
    }
}

/// The first generated lines as they are written, each with its newline.
#[derive(Clone, Copy, Debug)]
pub struct GeneratedLines {
    /// The number of lines.
    pub count: u32,
}

impl Table for GeneratedLines {
    ghost count = { λ table. table.count };

    ghost text = { λ _ k. generated_line k };

    fn len(&self) -> usize {
        self.count as usize
    }

    fn put(&self, _alloc: Global, k: usize, page: &mut Page) -> Result<(), AllocError> {
        push_generated(page, k)?;
        page.push(b"\n")
    }
}

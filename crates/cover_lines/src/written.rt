// The names of a cover, as lines.
ghost use Rattle.std.specs.Prelude.{◌≡◌, ◌++◌, [], OnOk, length, slice_get, flat_map};
ghost use Rattle.std.specs.Option.{option_map_or};
ghost use Rattle.cpe_fs.specs.Grammar.{fs_text};
ghost use Rattle.line_session.specs.Prelude.{AppendsPrefix, HasSinkCause, Pours};
ghost use Rattle.cover_lines.specs.Lines.{name_line};

use cpe_fs::append_fs;
use cpe_rows::{List, Wfn};
use line_session::{Page, Sink, SinkFault, Table, pour_table};
use std::alloc::{AllocError, Global};

// A line for each name.
#[derive(Clone, Copy)]
struct NameLines<'n> {
    names: &'n List<Wfn>,
}

impl Table for NameLines<'_> {
    ghost count = { λ lines. length lines.names.now };

    ghost text = { λ lines k. option_map_or name_line (slice_get lines.names.now k) [] };

    fn len(&self) -> usize {
        let names = self.names;
        names.len()
    }

    fn put(&self, alloc: Global, k: usize, page: &mut Page) -> Result<(), AllocError> {
        let names = self.names;
        match names.at(k) {
            Some(name) => push_name_line(alloc, page, name),
            None => Ok(()),
        }
    }
}

fn push_cover_name(alloc: Global, page: &mut Page, name: &Wfn) -> Result<(), AllocError>
    ensures { OnOk result (page.new ≡ page.old ++ fs_text name.now) }
{
    page.with_bytes(alloc, |bytes| append_fs(bytes, name))
}

#[tactic(auto, unfolding(crate::specs::Lines::name_line))]
fn push_name_line(alloc: Global, page: &mut Page, name: &Wfn) -> Result<(), AllocError>
    ensures { OnOk result (page.new ≡ page.old ++ name_line name.now) }
{
    push_cover_name(alloc, page, name)?;
    page.push(b"\n")
}

/// Appends a line for each name to the page, and writes full pages to the sink.
///
/// # Errors
/// A failed write, or that memory ran out. A prefix of the lines may be written by then.
pub(crate) fn pour_names<K: Sink>(
    alloc: Global,
    names: &List<Wfn>,
    page: &mut Page,
    sink: &mut K,
) -> Result<(), SinkFault>
    ensures ok { OnOk result (Pours (K.held sink.old) (K.held sink.new) page.old page.new (flat_map name_line names.now)) }
    ensures prefix { AppendsPrefix (K.held sink.old) (K.held sink.new) (page.old ++ flat_map name_line names.now) }
    ensures cause { HasSinkCause (K.faults sink.old) (K.faults sink.new) result }
{
    pour_table(alloc, &NameLines { names }, page, sink)
}

// Rows for which certificates are made.
ghost use Rattle.std.specs.Prelude.{◌≡◌, find, IfOk, map, option_copied};
ghost use Rattle.cpe_rows.specs.Prelude.{ends, is_followed};
ghost use Rattle.certificate_check.specs.Leading.{followed};
ghost use Rattle.certificate_check.specs.Relates.{related};

use certificate_check::{PlainRows, Relates};
use cpe_rows::{Memory, Mode, Wfn};
use std::alloc::Global;

/// Rows for which certificates are made. They also give answers for which a caller would have to search all rows.
pub trait ExplainedRows: PlainRows {
    /// The first item to which a name is related by `relates`, if there is one. An item is such if some end of the name
    /// is related to some end of the item.
    ///
    /// # Errors
    /// Only that memory ran out.
    fn first_item(
        &self,
        alloc: Global,
        relates: Relates,
        mode: Mode,
        name: &Wfn,
    ) -> Result<Option<&Wfn>, Memory>
        ensures { IfOk result (λ item. option_copied item ≡ find (is_followed (related relates) (followed (Self.rows self.now) mode) name.now) (Self.rows self.now).items) };

    /// The ends of a name, in the order of their entries.
    ///
    /// # Errors
    /// Only that memory ran out.
    fn ends<'a>(&'a self, alloc: Global, name: &'a Wfn) -> Result<Vec<&'a Wfn>, Memory>
        ensures { IfOk result (λ names. map (λ n. n.now) names.items ≡ ends (Self.rows self.now).entries name.now) };
}

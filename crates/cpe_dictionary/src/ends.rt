// The ends of names, in the dictionary as it is and after a planned change.
ghost use Rattle.std.specs.Prelude.{◌≡◌, IfOk, Some, position};
ghost use Rattle.cpe_rows.specs.Prelude.{ends, is_named};
ghost use Rattle.deprecation_graph.specs.Graph.{changed_nodes, ends_in};
ghost use Rattle.cpe_dictionary.specs.Kept.{entry_names_at};
ghost use Rattle.cpe_dictionary.specs.Numbers.{nodes_of_entries};
ghost use Rattle.cpe_dictionary.specs.Plans.{IsAllowed, ends_by};

use crate::by_number::{chains_by_number, entries_are_numbered};
use crate::dictionary::Dictionary;
use crate::plans::Plan;
use cpe_rows::{Memory, Wfn};
use std::alloc::Global;

impl Dictionary<'_> {
    /// The numbers of the ends of an entry, in increasing order. The function searches the entry's chain.
    ///
    /// # Errors
    /// [`Memory`] if memory runs out.
    pub fn ends(&self, alloc: Global, name: &Wfn, number: u32) -> Result<Vec<u32>, Memory>
        requires { position (is_named name.now) self.now ≡ Some number }
        ensures numbers { IfOk result (λ ks. ks.items ≡ ends_in (nodes_of_entries self.now) number) }
        ensures names { IfOk result (λ ks. entry_names_at self.now ks.items ≡ ends self.now name.now) }
    {
        chains_by_number();
        entries_are_numbered();
        match self.graph.ends(alloc, number) {
            Ok(ends) => Ok(ends),
            Err(_) => Err(Memory),
        }
    }

    /// The numbers of the ends that an entry would have after a planned change. The function searches the chain that
    /// the entry would have.
    ///
    /// # Errors
    /// [`Memory`] if memory runs out.
    pub fn ends_after(
        &self,
        alloc: Global,
        plan: &Plan,
        name: &Wfn,
        number: u32,
    ) -> Result<Vec<u32>, Memory>
        requires number { position (is_named name.now) self.now ≡ Some number }
        requires plan { IsAllowed self.now plan.now.number plan.now.next }
        ensures numbers { IfOk result (λ ks. ks.items ≡ ends_in (changed_nodes (nodes_of_entries self.now) plan.now.number plan.now.next) number) }
        ensures names { IfOk result (λ ks. entry_names_at self.now ks.items ≡ ends_by self.now (Some plan.now) name.now) }
    {
        match self
            .graph
            .ends_after(alloc, number, plan.number, plan.next())
        {
            Ok(ends) => Ok(ends),
            Err(_) => Err(Memory),
        }
    }
}

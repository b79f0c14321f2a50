// The graph: its fields and its public functions.
ghost use Rattle.std.specs.Prelude.{◌≡◌, ◌↔◌, ◌+◌, ◌++◌, ◌∷◌, [], ◌<◌, ◌≤◌, length, None, IsTrue, OnOk, OnErr, IfOk, option_copied};

use crate::changes::{reserve_kept, set_kept};
use crate::check::{check_change, find_chain, find_ends, find_sources, is_led_to};
use crate::fault::GraphFault;
use crate::groups::GroupMember;
use crate::kept::{KeptGraph, NodeChange, successors};
use crate::limits::{MOST_EDGES, MOST_NODES};
use crate::lists::Lists;
use out_of_memory::Memory;
use std::alloc::Global;
use std::marker::Model;

/// Nodes with their successors. Nodes are numbered from 0 in the order in which they were added. No node is ever
/// removed.
#[derive(Drop)]
pub struct DeprecationGraph {
    kept: KeptGraph,
    room_nodes: u32,
    room_edges: u32,
}

impl Model for DeprecationGraph {
    ghost use Rattle.deprecation_graph.specs.Graph.{Graph};

    ghost Value = { Graph };

    ghost use Rattle.deprecation_graph.specs.Kept.{nodes_in, IsStored};

    ghost view = { λ g. record { nodes = nodes_in g.kept; room_nodes = g.room_nodes; room_edges = g.room_edges } };

    ghost invariant = { λ g. IsStored g.kept g.room_nodes g.room_edges };
}

impl DeprecationGraph {
    ghost use Rattle.deprecation_graph.specs.Paths.{Leads};
    ghost use Rattle.deprecation_graph.specs.Graph.{next_of_node, chain_in, ends_in, sources_in, edge_count, successors as successors_of, changed_nodes, node_of, NamesNodes, IsChange, IsLawfulGraph};
    ghost use Rattle.deprecation_graph.specs.Faults.{change_fault, IsVerdict};
    ghost use Rattle.deprecation_graph.specs.Room.{MakesGraphRoom};

    /// A graph without nodes and without room. Allocates: no.
    pub fn new(alloc: Global) -> DeprecationGraph
        ensures nodes { result.nodes ≡ [] }
    {
        DeprecationGraph {
            kept: KeptGraph {
                active: Vec::new(alloc),
                next: Lists::new(alloc),
                before: Lists::new(alloc),
                mates: Vec::new(alloc),
                groups: Vec::new(alloc),
            },
            room_nodes: 0,
            room_edges: 0,
        }
    }

    /// Makes room for this number of nodes and edges beside the present ones. Room that is already there counts, and no
    /// room is lost. The nodes are unchanged. Costs constant time, or a copy of each vector that has to grow.
    ///
    /// # Errors
    ///
    /// [`Memory`] if memory runs out. The graph and its room are then unchanged.
    pub fn reserve(&mut self, nodes: u32, edges: u32) -> Result<(), Memory>
        requires nodes { length self.old.nodes + nodes ≤ MOST_NODES }
        requires edges { edge_count self.old.nodes + edges ≤ MOST_EDGES }
        ensures { MakesGraphRoom self.old self.new nodes edges result }
    {
        let room_nodes = self.room_nodes.max(nodes);
        let room_edges = self.room_edges.max(edges);
        reserve_kept(&mut self.kept, room_nodes as usize, room_edges as usize)?;
        self.room_nodes = room_nodes;
        self.room_edges = room_edges;
        Ok(())
    }

    /// Adds an active node without successors, and returns its number. Costs constant time. Allocates: no.
    pub fn add_node(&mut self) -> u32
        requires { 1 ≤ self.old.room_nodes }
        ensures number { result ≡ length self.old.nodes }
        ensures nodes { self.new.nodes ≡ self.old.nodes ++ node_of None ∷ [] }
        ensures room_nodes { self.new.room_nodes + 1 ≡ self.old.room_nodes }
        ensures room_edges { self.new.room_edges ≡ self.old.room_edges }
    {
        let number = self.kept.active.len() as u32;
        self.kept.active.push_reserved(true);
        self.kept.next.add_list();
        self.kept.before.add_list();
        self.kept.groups.push_reserved(GroupMember::Head(1));
        self.room_nodes -= 1;
        number
    }

    /// Whether the node may get these successors and become inactive, or become active if `next` is `None`. The graph
    /// is unchanged.
    ///
    /// Nodes are in groups, and each group has a head, its lowest node. If an edge was ever between two nodes, both are
    /// in one group. No path leads from a group to another. So the check needs no search if the groups of the node and
    /// of its new successors have fewer than [`MOST_ENDS`](crate::MOST_ENDS) active nodes together. It searches if the
    /// way to the head of such a group is long.
    ///
    /// Otherwise the cost depends on the node. If no node has it as a successor, one search of its new chain is enough.
    /// No search is needed if it gets at most one successor, or only active successors. If some node has it as a
    /// successor, the chains of the new successors are searched for a path back to the node. Then, if the node is
    /// active, its new chain is searched. If this chain has at most one end, no node can get too many ends. Otherwise
    /// the node's sources are searched, and then the new chain of each source that is a successor of no node. If one of
    /// these has too many ends, the new chains of all sources are searched for the least such node.
    ///
    /// # Errors
    ///
    /// [`GraphFault::Cycle`] exactly if a path leads from a successor to the node; a path also leads from the node to
    /// itself. Otherwise [`GraphFault::TooWide`] exactly if a node would have more than [`MOST_ENDS`](crate::MOST_ENDS)
    /// ends after the change. [`GraphFault::Memory`] may be returned instead of any result.
    pub fn check(&self, alloc: Global, node: u32, next: Option<&[u32]>) -> Result<(), GraphFault>
        requires { IsChange self.now.nodes node (option_copied next) }
        ensures { IsVerdict result (change_fault self.now.nodes node (option_copied next.entry)) }
    {
        check_change(alloc, &self.kept, NodeChange { node, next })
    }

    /// Makes a change that [`check`](Self::check) allows. The node gets these successors and becomes inactive. If
    /// `next` is `None`, the node gets no successors and becomes active. All other nodes are unchanged. Allocates: no.
    ///
    /// Each new successor costs constant time and the ways to the heads of two groups; these ways are halved for the
    /// next search. Each old successor costs constant time, however many nodes have it as a successor.
    pub fn set_edges(&mut self, node: u32, next: Option<&[u32]>)
        requires change { IsChange self.old.nodes node (option_copied next) }
        requires allowed { change_fault self.old.nodes node (option_copied next) ≡ None }
        requires room { length (successors_of (option_copied next)) ≤ self.old.room_edges }
        ensures nodes { self.new.nodes ≡ changed_nodes self.old.nodes node (option_copied next.entry) }
        ensures room_nodes { self.new.room_nodes ≡ self.old.room_nodes }
        ensures room_edges { self.old.room_edges ≤ self.new.room_edges + length (successors_of (option_copied next.entry)) }
    {
        set_kept(&mut self.kept, node, next);
        self.room_edges -= successors(next).len() as u32;
    }

    /// Whether a path leads from the node `from` to the node `to`. A path leads from each node to itself. The function
    /// searches the chain of `from`. It needs no search if `from` has no successor, or if `to` is a successor of no
    /// node.
    ///
    /// # Errors
    ///
    /// [`Memory`] if memory runs out.
    pub fn reaches(&self, alloc: Global, from: u32, to: u32) -> Result<bool, Memory>
        requires from { from < length self.now.nodes }
        requires to { to < length self.now.nodes }
        ensures { IfOk result (λ led. IsTrue led ↔ Leads (next_of_node self.now.nodes) from to) }
    {
        Ok(is_led_to(alloc, &self.kept, from, to)?)
    }

    /// The chain of the node: the node itself and all nodes to which a path leads from it, in increasing order.
    ///
    /// The time is proportional to the nodes and edges of the chain, times the logarithm of its length. The memory is
    /// proportional to its nodes.
    ///
    /// # Errors
    ///
    /// [`Memory`] if memory runs out.
    pub fn chain(&self, alloc: Global, node: u32) -> Result<Vec<u32>, Memory>
        requires { node < length self.now.nodes }
        ensures { IfOk result (λ chain. chain.items ≡ chain_in self.now.nodes node) }
    {
        Ok(find_chain(alloc, &self.kept, None, node)?)
    }

    /// The ends of the node: the active nodes of its chain, in increasing order. The function searches the chain.
    ///
    /// # Errors
    ///
    /// [`Memory`] if memory runs out.
    pub fn ends(&self, alloc: Global, node: u32) -> Result<Vec<u32>, Memory>
        requires { node < length self.now.nodes }
        ensures { IfOk result (λ ends. ends.items ≡ ends_in self.now.nodes node) }
    {
        Ok(find_ends(alloc, &self.kept, None, node)?)
    }

    /// The ends that `node` would have after a change of the node `changed`. The change gives `changed` these
    /// successors and makes it inactive, or makes it active if `next` is `None`. The graph is unchanged. The function
    /// doesn't test whether the change is allowed. It searches the chain that `node` would have.
    ///
    /// # Errors
    ///
    /// [`Memory`] if memory runs out.
    pub fn ends_after(
        &self,
        alloc: Global,
        node: u32,
        changed: u32,
        next: Option<&[u32]>,
    ) -> Result<Vec<u32>, Memory>
        requires node { node < length self.now.nodes }
        requires change { NamesNodes self.now.nodes changed (option_copied next) }
        ensures { IfOk result (λ ends. ends.items ≡ ends_in (changed_nodes self.now.nodes changed (option_copied next.entry)) node) }
    {
        let change = NodeChange {
            node: changed,
            next,
        };
        Ok(find_ends(alloc, &self.kept, Some(change), node)?)
    }

    /// The sources of the node: all nodes whose chain has it, the node itself included, in increasing order. The
    /// function searches backwards. The time is proportional to the sources and the edges between them, times the
    /// logarithm of their number.
    ///
    /// # Errors
    ///
    /// [`Memory`] if memory runs out.
    pub fn sources(&self, alloc: Global, node: u32) -> Result<Vec<u32>, Memory>
        requires { node < length self.now.nodes }
        ensures { IfOk result (λ sources. sources.items ≡ sources_in self.now.nodes node) }
    {
        Ok(find_sources(alloc, &self.kept, node)?)
    }

    /// Law: each graph has at most [`MOST_NODES`](crate::MOST_NODES) nodes and no cycle. Each successor is a node.
    /// Active nodes have no successors. No node has more than [`MOST_ENDS`](crate::MOST_ENDS) ends.
    pub fn lawful(&self)
        ensures { IsLawfulGraph self.now.nodes }
    {
        let _kept = &self.kept;
    }
}

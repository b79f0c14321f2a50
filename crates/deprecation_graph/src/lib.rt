//! A graph of deprecations (NIST IR 7697): each node's successors, and the active nodes at which its paths end.
//!
//! Nodes are numbers from 0 without gaps. A node is active, or it is inactive and has a list of successors, which may
//! be empty. On a path, each node after the first is a successor of the node before it. The chain of a node has the
//! node itself and all nodes to which paths lead from it. The ends of a node are the active nodes of its chain. The
//! sources of a node are the nodes whose chain has it. There is never a cycle, and no node has more than [`MOST_ENDS`]
//! ends. [`DeprecationGraph::check`] decides whether a change keeps these rules. [`DeprecationGraph::set_edges`] makes
//! an allowed change without taking memory.
//!
//! Each edge is kept in both directions. So the cost of a search depends on what it finds, and not on the number of
//! nodes. Nodes are also kept in groups that no edge leaves, each with the number of its active nodes. If this number
//! is small, a change needs no search.
//!
//! [`fill`] makes a graph of given nodes, whose edges may be in any order. It sets the edges of a node only after the
//! edges of each of its successors are set. So if the last graph is lawful, each graph before it is lawful too. And if
//! a graph is refused, the given nodes make no lawful graph.
//!
//! Three functions do nothing, and their contracts are laws: [`chains_are_paths`](law::chains_are_paths),
//! [`changes_are_local`](law::changes_are_local), [`additions_are_local`](law::additions_are_local).
#![tactic(auto)]

mod changes;
mod check;
mod fault;
mod few;
mod fill_fault;
mod filled;
mod filling;
mod fit;
mod graph;
mod groups;
mod kept;
pub mod law;
mod limits;
mod lists;
mod mirror;
mod search;

pub use fault::GraphFault;
pub use fill_fault::FillFault;
pub use filled::fill;
pub use graph::DeprecationGraph;
pub use limits::{MOST_EDGES, MOST_ENDS, MOST_NODES, MOST_SUCCESSORS};
pub use out_of_memory::Memory;

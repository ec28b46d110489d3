//! The uniformity graph of a function: its nodes, and the edges that say what must be uniform where something else must.
//!
//! The definitions stand in `specs/`: the nodes and edges in `Graph.antt`, the order of nodes in `Order.antt`.
#![tactic(auto)]

mod fault;
mod gather;
mod graph;
mod node;
mod order;

pub use fault::GraphFault;
pub use graph::{FnGraph, add_function_nodes, graph_of};
pub use node::{Node, Tag, Via};
pub use order::in_order;

//! The uniformity graph of a function, whatever statements it has: its nodes, and the edges that say what must be uniform where something
//! else must.
//!
//! The rules stand in `specs/`: where analysed statements stand in `Structure.antt`, what is said of one statement in `Rows.antt`, nodes, edges
//! and the reasons of edges in `Edges.antt`, all rows in `AllRows.antt`. What one walk over the statements has stands in `Visits.antt`, and the lists
//! of nodes and rows that it makes in `NodeLists.antt`, `RowLists.antt` and `HeldRows.antt`.
#![tactic(auto)]

mod all_rows;
mod differs;
mod edges;
mod held;
mod nodes;
mod rows;
mod walk;

pub use all_rows::rows_of;
pub use edges::{Joined, given_edges};
pub use nodes::nodes_of;
pub use rows::Given;
pub use walk::{PartSpan, Spot, Spots, analysed};

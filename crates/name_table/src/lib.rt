//! Tables of names: finite maps from names to processes, each with a rule. `Names` is what all layers above use of them;
//! `ListTable` keeps a sorted list, `IndexTable` finds names and owners by hashing.
#![tactic(auto)]

mod change;
mod index_table;
mod list_table;
mod name_set;
mod names;

pub use change::{Change, Pair, Registration, copied_pairs};
pub use index_table::IndexTable;
pub use list_table::ListTable;
pub use names::Names;

//! Ordered links: one list for each ordered pair of nodes, a node's link to itself among them.
#![tactic(auto)]

mod faults;
mod laws;
mod link;
mod link_place;
mod mailbox;
mod mesh;
mod mesh_end;
mod station;

pub use faults::{LinkFault, Unsent};
pub use laws::{prefixes_are_delivered, stamped_prefixes_are_delivered};
pub use link_place::LinkPlace;
pub use mailbox::{Mailbox, Port, Root, Sourced, compare, open};
pub use mesh::{Mesh, are_rising};
pub use mesh_end::MeshEnd;
pub use station::{Inbox, Post, Station};

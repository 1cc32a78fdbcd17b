//! Descriptions: what processes say of themselves at a server, as an address or a version.
#![tactic(auto)]

mod description;
mod descriptions;
mod shared;

pub use description::Description;
pub use descriptions::{DescriptionFault, Descriptions};
pub use shared::SharedDescriptions;

//! What a node has to send: a list of letters for each receiver, sent oldest first as far as there is room.
#![tactic(auto)]

mod slot;
mod tray;

pub use tray::Tray;

//! The texts of the product: names of nodes, nodes, names, processes, rules, and ids of locks. And sets of nodes and of their names, and
//! limits.
#![tactic(auto)]

mod digits;
mod faults;
mod laws;
mod limits;
mod lock_id;
mod lock_laws;
mod name;
mod node;
mod node_name;
mod node_names;
mod node_set;
mod pid;
mod requester;
mod resource;
mod rule;
mod set_algebra;
mod text;

pub use faults::TextFault;
pub use laws::{
    comparisons_are_by_number, names_are_exact, names_keep_byte_order, names_keep_their_bytes,
    node_lists_are_decided, node_names_are_exact, nodes_are_exact, nodes_are_ordered_by_name,
    pids_are_exact, rules_are_exact,
};
pub use limits::{
    CONSOLES, CONSOLES_AT_ONCE, ENTRANCES, INBOX_ROOM, LONGEST_COOKIE, LONGEST_DESCRIPTION,
    LONGEST_LINE, LONGEST_PATH, LONGEST_SILENCE, LONGEST_TEXT, MOST_CONSOLES,
    MOST_CONSOLES_AT_ONCE, MOST_DESCRIPTIONS, MOST_EVENTS, MOST_LETTERS, MOST_LINES, MOST_LINKS,
    MOST_NODES, MOST_READERS, MOST_SEATS, MOST_TURNS, MOST_WORDS, SEAT_NUMBERS, SETTLE_LIMIT,
    SHORTEST_COOKIE, SLOTS, STAYING_LINES,
};
pub use lock_id::LockId;
pub use lock_laws::{global_is_spelled_so, lock_ids_are_compared_by_number};
pub use name::{Name, parse_name, print_name};
pub use node::{Node, parse_node, print_node};
pub use node_name::{NodeName, parse_node_name, print_node_name};
pub use node_names::{NodeNames, parse_nodes, print_nodes};
pub use node_set::{NodeSet, parse_node_set};
pub use pid::{Pid, parse_pid, print_pid};
pub use requester::{Requester, parse_requester, print_requester};
pub use resource::{Resource, parse_resource, print_resource};
pub use rule::{Rule, parse_rule};

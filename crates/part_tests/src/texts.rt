//! Texts: names, processes, sets of nodes and ids of locks.

mod lock_ids;
mod names;
mod nodes;
mod reading;
mod rules;

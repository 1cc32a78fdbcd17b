//! Tests of the parts of a node: texts; tables of names, of the watch over the processes that own them, of spans of the dead, of joins
//! of tables, and of the notices that processes are sent; tables of locks, rounds, calls, and work under a lock, and the queue of a
//! registrar, which asks for one; and the links over which nodes ask each other. They stand in one crate, since each crate of tests
//! reads anew all that stands below it.
#![tactic(auto)]

#[cfg(test)]
mod links;
#[cfg(test)]
mod locks;
#[cfg(test)]
mod tables;
#[cfg(test)]
mod texts;

//! Meshes and their ends, inboxes between threads, and trays.

mod inboxes;
mod meshes;
mod trays;

//! Tables of locks, rounds, calls, lines, work under a lock, and the queue of a registrar.

mod calls;
mod lines;
mod registrars;
mod rounds;
mod seats;
mod tables;

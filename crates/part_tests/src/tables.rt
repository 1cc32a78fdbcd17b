//! Tables of names, the watch over the processes that own them, spans of the dead, joins of tables, and notices.

mod deaths;
mod joins;
mod kinds;
mod notices;
mod owed;
mod reading;
mod watches;

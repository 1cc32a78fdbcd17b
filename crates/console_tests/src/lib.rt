//! Tests of consoles and of what serves them: what only a call in code can show. What lines are answered, and by a server that stays, is
//! shown by tests/consoles and tests/acceptance, on the built program.
#![tactic(auto)]

#[cfg(test)]
mod clerks;
#[cfg(test)]
mod cookies;
#[cfg(test)]
mod described;
#[cfg(test)]
mod ends;
#[cfg(test)]
mod faults;
#[cfg(test)]
mod greetings;
#[cfg(test)]
mod links;
#[cfg(test)]
mod listeners;
#[cfg(test)]
mod lookouts;
#[cfg(test)]
mod refusals;
#[cfg(test)]
mod staying;
#[cfg(test)]
mod streams;

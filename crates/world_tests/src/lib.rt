//! Tests of worlds, of logs and of their replays, and of scripts: what their calls give that no script prints, and what only a call
//! in code can show of scripts. What scripts print is shown by tests/scripts, on the built program.
#![tactic(auto)]

#[cfg(test)]
mod holds;
#[cfg(test)]
mod logs;
#[cfg(test)]
mod names;
#[cfg(test)]
mod records;
#[cfg(test)]
mod runs;
#[cfg(test)]
mod seats;
#[cfg(test)]
mod streams;
#[cfg(test)]
mod words;
#[cfg(test)]
mod worlds;

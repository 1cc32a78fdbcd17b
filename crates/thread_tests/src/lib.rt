//! Tests of clusters of threads: their seats, their leaves and what a close comes to.
#![tactic(auto)]

#[cfg(test)]
mod calls;
#[cfg(test)]
mod cast;
#[cfg(test)]
mod doors;
#[cfg(test)]
mod forgetful;
#[cfg(test)]
mod plays;
#[cfg(test)]
mod scenes;
#[cfg(test)]
mod tables;

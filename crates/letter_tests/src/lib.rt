//! Tests of the texts of letters.
#![tactic(auto)]

#[cfg(test)]
mod letters;

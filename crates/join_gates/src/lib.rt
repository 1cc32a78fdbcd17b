//! Joins under way: how far each join has come between the joiner and its contact, and that every rule keeps it so.
//! Lemmas only, in `proofs/`.
#![tactic(auto)]

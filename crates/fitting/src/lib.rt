//! That histories fit the events that made them, and that answers are those of the entries. Lemmas only, in `proofs/`.
#![tactic(auto)]

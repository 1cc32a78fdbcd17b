//! Departures, members and the global lock: what each rule of a step keeps of them, and that the lock has one writer.
//! Lemmas only, in `proofs/`.
#![tactic(auto)]

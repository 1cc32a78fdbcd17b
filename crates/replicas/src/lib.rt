//! What nodes show of the registry, and which operation holds: kept by every rule of a step. Lemmas only, in `proofs/`.
#![tactic(auto)]

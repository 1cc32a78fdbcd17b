//! Clients' locks: at each running node no resource is held under two requesters. Lemmas, in `proofs/`.
#![tactic(auto)]

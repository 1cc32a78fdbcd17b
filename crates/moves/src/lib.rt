//! The steps of a node as chains of single rules, each with what was tested before it: what every proof about the protocol
//! goes through. Lemmas only, in `proofs/`.
#![tactic(auto)]

//! Every accepted event is a chain of single rules, so what each rule keeps is kept by every run. Lemmas only, in `proofs/`.
#![tactic(auto)]

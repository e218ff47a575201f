// No code: this crate holds the demands as theorems about the definitions that the contracts of the crates below name.
#![tactic(auto)]

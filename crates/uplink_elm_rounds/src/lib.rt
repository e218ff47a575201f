// No code: the rounds of an extended length message against an interferer (specs/), and the theorems about them (proofs/).
#![tactic(auto)]

// What the calls on the roll-call table mean: statements in specs/, and their proofs.
#![tactic(auto)]

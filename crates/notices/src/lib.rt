// No code: what division by the generator notices of a change, whatever the message. The tests that the checker computes
// over sums of powers stand here, so that a statement above does not compute them again.
#![tactic(auto)]

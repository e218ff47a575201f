// No code: what the calls of `stream` write for any list of pieces is sift's output for the pieces joined, as theorems.
#![tactic(auto)]

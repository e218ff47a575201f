// No code: what document 02, Point 1 says of an altitude code, as a relation, and the theorems that the definitions of the
// crate altitude_code say the same. The tests that the checker computes over all codes stand here, so that neither the code's
// crate nor the statements above pay for them.
#![tactic(auto)]

// The 24 bits of a window: how many low marks there are, whether a pattern lies on low marks only, and the adding of a
// pattern. A window is given as the part of a buffer from the byte of its first bit on, and how far into that byte it starts.
//
// Such a window lies in the first four bytes of the part. A byte that is not there counts as 0 and takes nothing, so
// every function takes any part; its contract names a definition of specs/Windows.antt.
#![tactic(auto)]

mod inverting;
mod marks;

pub use inverting::invert_window;
pub use marks::{Window, fits, is_dense, is_sparse};

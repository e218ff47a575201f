// Text as programs read it: its lines and columns, and what digits write.
//
// Every public function takes any input. Its contract gives the result by a definition of specs/, and a lent buffer by
// what is appended to it (`append` of the crate `text`).
#![tactic(auto)]

mod bytes;
mod digits;
mod lines;
mod numbers;
mod pieces;

pub use bytes::hex_bytes;
pub use digits::{all_decimal, all_hex};
pub use lines::Lines;
pub use numbers::{decimal_number, hex_number};
pub use pieces::{after, cut, split_once};

// What the programs share: a console, the lines of an input, and the forms of their arguments.
#![tactic(auto)]

mod arguments;
mod lines;
mod streams;

pub use arguments::{bit, bytes, number, word};
pub use lines::{Answering, columns};
pub use streams::{Console, LIMIT, UNREAD, UNWRITTEN};

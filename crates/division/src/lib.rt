// Division by the Mode S generator: the register, R of a field in document 01's three ways and by folding, the remainder of a
// message, the address read from it, the address overlay, the register run backwards, and the byte table itself.
//
// Every public function takes any input and answers a word of 24 bits or the refusal (the byte table, which nothing can refuse,
// is a value alone). Its contract says which, by a definition of specs/Answers.antt. Private workers are lent a static table.
#![tactic(auto)]

mod byte_table;
mod folding;
mod overlay;
mod register;
mod remainder;
mod rows;
mod words;

pub use byte_table::{byte_remainders, parity_by_bytes};
pub use folding::parity_by_folding;
pub use overlay::uplink_overlay;
pub use register::{parity_by_register, register_back, register_step};
pub use remainder::{address_read, message_remainder};
pub use rows::parity_by_rows;

// The generator, x^24 on top.
const GENERATOR: u32 = 0x1FFF409;

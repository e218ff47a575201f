// Text as programs write it: appending bytes, capital hexadecimal digits and decimal digits to a lent buffer. The crate
// `reading` is for text as programs read it.
//
// An `Output` borrows a buffer and counts the bytes of it that are taken. Each of its methods takes any input and
// promises, by a definition of specs/, the text that it appends; what a full buffer has no place for is left out. When
// the `Output` goes, its lender knows what the buffer holds.
#![tactic(auto)]

mod output;

pub use output::Output;

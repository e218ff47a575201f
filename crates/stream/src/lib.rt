// sift's answers to a recording of any size, which comes in pieces: `State::begin` writes the header, `feed` answers the lines
// that end in a piece, `finish` the last line where it has no line feed. What is held between two pieces is a small struct by
// value, of one size whatever the recording.
//
// The pieces are taken byte by byte. A byte is kept, or it is a line feed and the bytes kept are a line; so that a piece may
// end anywhere, and the proof has one step.
//
// The output buffer has room for every output of one call. An answer has at most 19 bytes, those of a malformed line, and 24
// for each byte of the line (report/src/lib.rt), and its number, which is below 10^19, at most 19. So a piece of 4,096 bytes
// gives at most 62 bytes for each of its bytes, which may be a line feed or a byte of a line, and 24 for each of the 68 bytes
// kept before: 255,584. The buffer has that rounded up to a multiple of 64: 255,616.
#![tactic(auto)]

mod state;

pub use state::{Refused, State};

// Reading an input into a buffer.
//
// Where the bytes that a reader has left are known, the contract says which of them the buffer holds. Those of a process's
// own input are not known.
#![tactic(auto)]

ghost use Rattle.std.specs.Prelude.{◌<◌, ◌≤◌, length, take, OnOk};
ghost use Rattle.std.specs.Io.KnownBytes.{Consumes, IsAtEnd};

use std::io;
use std::io::Read;

// How many bytes stand at the start of the buffer, and the error of the read that failed after them. The size counts in both
// cases, so it stands beside the `Result`, and not in it.
#[derive(Clone, Copy, Debug)]
pub struct Filled {
    pub size: usize,
    pub ended: io::Result<()>,
}

// Reads until the buffer is full, the input ends or a read fails. An empty buffer takes no read.
pub fn read_full<R: Read>(input: &mut R, buf: &mut [u8]) -> Filled
    ensures in_bounds { result.size ≤ length buf.new }
    ensures bytes { Consumes (R.remaining input.old) (R.remaining input.new) (take result.size buf.new) }
    ensures end { OnOk result.ended (result.size < length buf.new → IsAtEnd (R.remaining input.new)) }
{
    let mut size = 0;
    // a read gives any number of bytes, so that nothing counts the turns for a `for`
    while size < buf.len() {
        match input.read(&mut buf[size..]) {
            Ok(0) => break,
            Ok(n) => size += n,
            Err(error) => return Filled {
                size,
                ended: Err(error),
            },
        }
    }
    Filled {
        size,
        ended: Ok(()),
    }
}

#[cfg(test)]
mod tests {
    use super::*;
    use std::io::ErrorKind;
    use std::test::Fail;

    // Gives a byte at each read, and fails once they are used up.
    #[derive(Drop)]
    struct Dripping {
        left: u8,
    }

    impl Read for Dripping {
        fn read(&mut self, buf: &mut [u8]) -> io::Result<usize> {
            if self.left == 0 {
                return Err(io::Error::from(ErrorKind::Other));
            }
            if buf.is_empty() {
                return Ok(0);
            }
            buf[0] = self.left;
            self.left -= 1;
            Ok(1)
        }
    }

    #[test]
    fn reads_to_the_end(rt: HostRuntime) -> Result<(), Fail> {
        let mut input: &[u8] = b"abc";
        let mut buf = [0u8; 5];
        let read = read_full(&mut input, &mut buf);
        assert_eq!(rt; read.size, 3);
        assert!(rt; read.ended.is_ok());
        assert_eq!(rt; buf, [97, 98, 99, 0, 0]);
        Ok(())
    }

    #[test]
    fn stops_where_the_buffer_is_full(rt: HostRuntime) -> Result<(), Fail> {
        let mut input = Dripping { left: 3 };
        let mut buf = [0u8; 2];
        let read = read_full(&mut input, &mut buf);
        assert_eq!(rt; read.size, 2);
        assert!(rt; read.ended.is_ok());
        assert_eq!(rt; buf, [3, 2]);
        assert_eq!(rt; input.left, 1);
        Ok(())
    }

    #[test]
    fn says_that_a_read_failed(rt: HostRuntime) -> Result<(), Fail> {
        let mut input = Dripping { left: 2 };
        let mut buf = [0u8; 4];
        let read = read_full(&mut input, &mut buf);
        assert_eq!(rt; read.size, 2);
        assert!(rt; read.ended.is_err());
        assert_eq!(rt; buf, [2, 1, 0, 0]);
        Ok(())
    }
}

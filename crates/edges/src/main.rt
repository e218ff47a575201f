// The edges of sift's input: each is handed to report::sift, and the length, the first and the last line of the output
// are printed.
#![tactic(auto)]

use std::io;
use std::io::Write;

fn main(rt: HostRuntime) -> io::Result<()> {
    show_all(&mut rt.stdout())
}

fn show_all<W: Write>(to: &mut W) -> io::Result<()> {
    let zeros = [b'0'; 65537];
    let feeds = [b'\n'; 65537];
    show(to, "no byte", b"")?;
    show(to, "one line feed", b"\n")?;
    show(to, "65,536 bytes", &zeros[..65536])?;
    show(to, "65,537 bytes", &zeros)?;
    show(to, "65,536 line feeds", &feeds[..65536])?;
    show(to, "65,537 line feeds", &feeds)?;
    show(
        to,
        "a last line without line feed",
        b"\n00000000EB2472 00008000000000 123456 24",
    )?;
    show(
        to,
        "a last line with line feed",
        b"\n00000000EB2472 00008000000000 123456 24\n",
    )?;
    show(
        to,
        "a carriage return",
        b"00000000EB2472 00008000000000 123456 24\r\n",
    )?;
    show(to, "bytes 0, 127, 128 and 255", b"\x00\n\x7F\n\x80\n\xFF")
}

// The buffer is the one that report::sift takes (report/src/lib.rt says how it comes to its size).
fn show<W: Write>(to: &mut W, name: &str, input: &[u8]) -> io::Result<()> {
    let mut out = [0u8; 1572928];
    let size = report::sift(input, &mut out);
    print(to, name, &out[..size])
}

// The last line with its line feed, if it has one.
fn print<W: Write>(to: &mut W, name: &str, output: &[u8]) -> io::Result<()> {
    writeln!(to, "{name}: {}", output.len())?;
    if let Some((first, _)) = reading::split_once(output, b'\n') {
        to.write_all(first)?;
    }
    to.write_all(b"\n")?;
    let last = output.split_inclusive(|b| *b == b'\n').last();
    to.write_all(last.unwrap_or_default())
}

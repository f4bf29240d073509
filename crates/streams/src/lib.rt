// Bytes out of a reader until a buffer is full, and into a writer as a whole. A read that fails ends the input; a write that fails is told.
#![tactic(auto)]

ghost use Rattle.std.specs.Prelude.{◌≤◌, length, take, OnOk};
ghost use Rattle.std.specs.Io.KnownBytes.{Appends, Consumes};

use std::io;
use std::io::{Read, Write};

// Reads until `buf` is full, the input ends or a read fails, and answers how many bytes it put at the start of `buf`.
pub fn read_full<R: Read>(from: &mut R, buf: &mut [u8]) -> usize
    ensures in_bounds { result ≤ length buf.new }
    ensures bytes { Consumes (R.remaining from.old) (R.remaining from.new) (take result buf.new) }
{
    let mut done = 0;
    while done < buf.len() {
        match from.read(&mut buf[done..]) {
            Ok(0) => break,
            Ok(n) => done += n,
            Err(_) => break,
        }
    }
    done
}

// Writes all of `buf`; where a write fails, some of `buf` may have been written.
pub fn write_all<W: Write>(to: &mut W, buf: &[u8]) -> io::Result<()>
    ensures { OnOk result (Appends (W.contents to.old) (W.contents to.new) buf.now) }
{
    to.write_all(buf)
}

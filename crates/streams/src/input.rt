// An input read whole: a container from a file or from standard input.
ghost use Rattle.std.specs.Prelude.{◌≡◌, ◌≤◌, ◌<◌, length, take, IfOk, OnErr};
ghost use Rattle.std.specs.Io.KnownBytes.{Consumes, IsAtEnd, Keeps};

use crate::AGAIN;
use std::io::{Error, ErrorKind, Read, Result};

// The most bytes that are judged; the buffer has one byte more, to detect a longer input.
pub const LONGEST: usize = 65_536;

pub const INPUT: usize = LONGEST + 1;

// One read: how many bytes it brought, which may be fewer than there is room for. One that a signal interrupts is made again.
fn read_some<R: Read>(from: &mut R, part: &mut [u8]) -> Result<usize>
    ensures fits { IfOk result (λ n. n ≤ length part.new) }
    ensures bytes { IfOk result (λ n. Consumes (R.remaining from.old) (R.remaining from.new) (take n part.new)) }
    ensures end { IfOk result (λ n. n ≡ 0 → 0 < length part.old → IsAtEnd (R.remaining from.new)) }
    ensures kept { OnErr result (Keeps (R.remaining from.old) (R.remaining from.new)) }
{
    let mut tries = AGAIN;
    // The count is by hand: that it falls is what a must-fail edit takes away.
    while 0 < tries {
        match from.read(part) {
            Err(e) if e.kind() == ErrorKind::Interrupted => {}
            other => return other,
        }
        tries -= 1;
    }
    Err(Error::from(ErrorKind::Interrupted))
}

// Reads until buf is full or the input ends, and answers how many bytes that brought. After a read that failed no byte counts as read. What a
// read of the system moves is open: only that it fits is promised. Of a reader whose bytes are known, those that count are the first that it had,
// and where there is room left it has no more.
pub fn read_input<R: Read>(from: &mut R, buf: &mut [u8]) -> Result<usize>
    ensures fits { IfOk result (λ n. n ≤ length buf.new) }
    ensures bytes { IfOk result (λ n. Consumes (R.remaining from.old) (R.remaining from.new) (take n buf.new)) }
    ensures end { IfOk result (λ n. n < length buf.new → IsAtEnd (R.remaining from.new)) }
{
    let mut done = 0;
    // A read may bring fewer bytes than there is room for, so no count of the reads is known.
    while done < buf.len() {
        let n = read_some(from, &mut buf[done..])?;
        if n == 0 {
            break;
        }
        done += n;
    }
    Ok(done)
}

// A text written whole to a file or to standard output.
ghost use Rattle.std.specs.Prelude.{◌≡◌, ◌≤◌, length, take, IfOk, IsOk, OnOk};
ghost use Rattle.std.specs.Io.{StartsWith};
ghost use Rattle.std.specs.Io.KnownBytes.{Appends};

use crate::AGAIN;
use std::io::{Error, ErrorKind, Result, Write};

// One write: how many bytes it took. One that a signal interrupts is made again.
fn write_some<W: Write>(to: &mut W, part: &[u8]) -> Result<usize>
    ensures fits { IfOk result (λ n. n ≤ length part.now) }
    ensures bytes { IfOk result (λ n. Appends (W.contents to.old) (W.contents to.new) (take n part.now)) }
{
    'again: for _ in 0..AGAIN {
        match to.write(part) {
            Err(e) if e.kind() == ErrorKind::Interrupted => {}
            other => return other,
        }
    }
    Err(Error::from(ErrorKind::Interrupted))
}

// Writes all of text: in one write where the system takes it whole, and in more only after a short one. It fails where one fails or takes nothing.
// What a write of the system moves is open: only that an empty text counts as written is promised. A writer whose bytes are known has text behind
// them then. The loop is not `write_all`'s, which tries another number of times and whose errors read otherwise.
pub fn write_text<W: Write>(to: &mut W, text: &[u8]) -> Result<()>
    ensures empty { length text.now ≡ 0 → IsOk result }
    ensures bytes { OnOk result (Appends (W.contents to.old) (W.contents to.new) text.now) }
{
    let mut rest = text;
    // A write may take fewer bytes than there are, so no count of the writes is known.
    while !rest.is_empty() {
        match write_some(to, rest)? {
            0 => return Err(Error::from(ErrorKind::WriteZero)),
            n => rest = &rest[n..],
        }
    }
    Ok(())
}

// The system's own words for an error: what stands before the bracket with its number.
fn words(text: &str) -> &str
    ensures { StartsWith text.now result.now }
{
    match text.split_once(" (os error ") {
        Some((words, _)) => words,
        None => text,
    }
}

// Says on standard error what failed, and why in the system's words.
pub fn fail<R: Eprint + Alloc>(rt: &R, what: &str, why: Error) -> Result<()> {
    let text = format!(in rt.alloc(); "{why}")?;
    eprintln!(rt; "{what}: {}", words(text.as_str()))
}

// Tests 17, 18 and 19: what is asked of a record, its image and its table at every call, whatever they hold. A session's record and a loaded one
// differ in what makes them sound, so each has two functions of its own; a trait with these would be longer than they are.
#![tactic(auto)]

ghost use Rattle.std.specs.Prelude.{◌≡◌, ◌≤◌};
ghost use Rattle.format.specs.Limits.{max_blocks, Sound};
ghost use Rattle.format.specs.declared.head.Head.{Head};
ghost use Rattle.format.specs.declared.head.File.{File};
ghost use Rattle.format.specs.Refusals.{first_failing, answered};
ghost use Rattle.format.specs.Record.{sizes_of, lent_tests};
ghost use Rattle.format.specs.declared.session.Session.{Session};
ghost use Rattle.format.specs.Session.{state_of, session_sound, session_tests};
ghost use Rattle.format.specs.declared.loaded.Loaded.{Loaded};
ghost use Rattle.format.specs.Loaded.{loaded_sound};
ghost use Rattle.format.specs.Reads.{container_of, loaded_tests};

use format::head::{COUNTS, File, Head, LISTS};
use format::loaded::Loaded;
use format::refusal::Refusal;
use format::session::Session;
use layout::Layout;
use rules::{heads, limits};

// Tests 18 and 19 of a record for m chunks, where 17 passed.
pub fn test_lent(
    h: Head,
    lists: &[u64; LISTS],
    m: u32,
    image: &[u8],
    table: &[i64],
) -> Result<(), Refusal>
    requires { Sound h.blocksize h.n (sizes_of lists.now) × (m ≤ max_blocks) }
    ensures { answered result ≡ first_failing (lent_tests h lists.now m image.now table.now) }
{
    let layout = Layout::of(h, lists);
    if (image.len() as u64) < layout.meta2_end(m) || table.len() < h.n as usize * m as usize {
        return Err(Refusal::TooShort);
    }
    if !tables::cells_ok(table, &layout, &lists[COUNTS..], m) {
        return Err(Refusal::CellsDisagree);
    }
    Ok(())
}

// Whether a session's record is sound, in a call that means this file.
pub fn session_ok(file: File, s: Session, lists: &[u64; LISTS]) -> bool
    ensures { result ≡ session_sound file s lists.now }
{
    if !heads::head_ok(s.head, lists) {
        return false;
    }
    let counts = &lists[COUNTS..];
    let counts = &counts[..s.head.n as usize];
    let least = limits::least_count(s.head.format);
    limits::planned_ok(s.planned)
        && limits::first_outside(counts, least, s.planned as u64).is_none()
        && files::suits(file, s.head)
}

pub fn test_session(
    file: File,
    s: Session,
    lists: &[u64; LISTS],
    image: &[u8],
    table: &[i64],
) -> Result<(), Refusal>
    ensures { answered result ≡ first_failing (session_tests (state_of file s lists.now image.now table.now)) }
{
    if s.closed != 0 || !session_ok(file, s, lists) {
        return Err(Refusal::BadRecord);
    }
    test_lent(s.head, lists, s.planned, image, table)
}

// Whether a loaded record is sound, in a call that means this file.
pub fn loaded_ok(file: File, l: Loaded, lists: &[u64; LISTS]) -> bool
    ensures { result ≡ loaded_sound file l lists.now }
{
    if !heads::head_ok(l.head, lists) {
        return false;
    }
    let counts = &lists[COUNTS..];
    let counts = &counts[..l.head.n as usize];
    limits::maxchunks_ok(l.maxchunks)
        && tables::counts_ok(counts, l.head.format, l.maxchunks)
        && files::suits(file, l.head)
}

pub fn test_loaded(
    file: File,
    l: Loaded,
    lists: &[u64; LISTS],
    image: &[u8],
    table: &[i64],
) -> Result<(), Refusal>
    ensures { answered result ≡ first_failing (loaded_tests (container_of file l lists.now image.now table.now)) }
{
    if l.closed != 0 || !loaded_ok(file, l, lists) {
        return Err(Refusal::BadRecord);
    }
    test_lent(l.head, lists, l.maxchunks, image, table)
}

// Tests 17, 18 and 19 of the two records of a pair (W-204): what is asked of both files at every call, whatever they hold. A parameter whose name ends in 0
// or 1 is of that file.
#![tactic(auto)]

ghost use Rattle.std.specs.Prelude.{◌≡◌};
ghost use Rattle.format.specs.declared.head.File.TheVariants.{First, Second};
ghost use Rattle.format.specs.declared.session.Session.{Session};
ghost use Rattle.format.specs.declared.loaded.Loaded.{Loaded};
ghost use Rattle.format.specs.Refusals.{first_failing, answered};
ghost use Rattle.format.specs.Session.{state_of};
ghost use Rattle.format.specs.Reads.{container_of};
ghost use Rattle.pairs.specs.Sessions.{pair_of, pair_tests};
ghost use Rattle.pairs.specs.Reads.{loaded_pair, loaded_pair_tests};

use format::head::{File, LISTS};
use format::loaded::Loaded;
use format::refusal::Refusal;
use format::session::Session;
use layout::Layout;

// Of a session's: 17 of file 0, 17 of file 1 and of a rank that is lacking, 18 of file 0 with the mapping's room, 19 of file 0, 18 and 19 of file 1.
pub fn test_sessions(
    s0: Session,
    lists0: &[u64; LISTS],
    image0: &[u8],
    table0: &[i64],
    s1: Session,
    lists1: &[u64; LISTS],
    image1: &[u8],
    table1: &[i64],
) -> Result<(), Refusal>
    ensures { answered result ≡ first_failing (pair_tests (pair_of (state_of First s0 lists0.now image0.now table0.now) (state_of Second s1 lists1.now image1.now table1.now))) }
{
    if s0.closed != 0 || !records::session_ok(File::First, s0, lists0) {
        return Err(Refusal::BadRecord);
    }
    if s1.closed != 0 || !records::session_ok(File::Second, s1, lists1) {
        return Err(Refusal::BadRecord);
    }
    let n = s0.head.n as usize;
    let m = s1.head.n as usize;
    if !ranks::none_lacking(&lists0[..n], &lists1[..m]) {
        return Err(Refusal::BadRecord);
    }
    let end = Layout::of(s0.head, lists0).meta2_end(s0.planned);
    if (image0.len() as u64) < end + mapping::length_of(n, m) {
        return Err(Refusal::TooShort);
    }
    records::test_lent(s0.head, lists0, s0.planned, image0, table0)?;
    records::test_lent(s1.head, lists1, s1.planned, image1, table1)
}

// Of a loaded pair's: the same, without the mapping's room.
pub fn test_loaded(
    l0: Loaded,
    lists0: &[u64; LISTS],
    image0: &[u8],
    table0: &[i64],
    l1: Loaded,
    lists1: &[u64; LISTS],
    image1: &[u8],
    table1: &[i64],
) -> Result<(), Refusal>
    ensures { answered result ≡ first_failing (loaded_pair_tests (loaded_pair (container_of First l0 lists0.now image0.now table0.now) (container_of Second l1 lists1.now image1.now table1.now))) }
{
    if l0.closed != 0 || !records::loaded_ok(File::First, l0, lists0) {
        return Err(Refusal::BadRecord);
    }
    if l1.closed != 0 || !records::loaded_ok(File::Second, l1, lists1) {
        return Err(Refusal::BadRecord);
    }
    let n = l0.head.n as usize;
    let m = l1.head.n as usize;
    if !ranks::none_lacking(&lists0[..n], &lists1[..m]) {
        return Err(Refusal::BadRecord);
    }
    records::test_lent(l0.head, lists0, l0.maxchunks, image0, table0)?;
    records::test_lent(l1.head, lists1, l1.maxchunks, image1, table1)
}

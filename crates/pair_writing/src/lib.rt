// A write to a pair by global rank (W-204): the tests of both sessions, then the request to the file that has the rank. A parameter whose name ends in 0
// or 1 is of that file.
#![tactic(auto)]

ghost use Rattle.std.specs.Prelude.{◌≡◌};
ghost use Rattle.format.specs.declared.head.File.TheVariants.{First, Second};
ghost use Rattle.format.specs.declared.session.Session.{Session};
ghost use Rattle.format.specs.Refusals.{answered};
ghost use Rattle.format.specs.Session.{state_of};
ghost use Rattle.format.specs.Write.{request_of};
ghost use Rattle.pairs.specs.Sessions.{pair_of, pair_write_refusal, pair_after_write, pair_write_found};

use format::head::LISTS;
use format::limit::ENDLESS;
use format::refusal::Refusal;
use format::session::Session;

// A write to a pair: tests 17, 18 and 19 of both files, 14, then the request to the task that carries the rank. Only a count of one file's lists may
// change. Of the byte stores into each image only the first `budget0` and `budget1` are made.
pub fn write_within(
    s0: Session,
    lists0: &mut [u64; LISTS],
    image0: &mut [u8],
    table0: &mut [i64],
    s1: Session,
    lists1: &mut [u64; LISTS],
    image1: &mut [u8],
    table1: &mut [i64],
    rank: u64,
    bytes: &[u8],
    budget0: u64,
    budget1: u64,
) -> Result<(), Refusal>
    ensures value { answered result ≡ pair_write_refusal (pair_of (state_of First s0 lists0.old image0.old table0.old) (state_of Second s1 lists1.old image1.old table1.old)) (request_of rank bytes.now) }
    ensures table1_after { (pair_of (state_of First s0 lists0.new image0.new table0.new) (state_of Second s1 lists1.new image1.new table1.new)) ≡ pair_write_found (pair_of (state_of First s0 lists0.old image0.old table0.old) (state_of Second s1 lists1.old image1.old table1.old)) (request_of rank bytes.now) budget0 budget1 }
{
    pair_records::test_sessions(s0, lists0, image0, table0, s1, lists1, image1, table1)?;
    let Some(task) = ranks::task_of(lists0, s0.head.n, lists1, s1.head.n, rank) else {
        return Err(Refusal::NoTask);
    };
    let n = s0.head.n as u64;
    if n < task {
        return writing::request(s1, lists1, image1, table1, task - n, bytes, budget1);
    }
    writing::request(s0, lists0, image0, table0, task, bytes, budget0)
}

// The same, with all of its stores.
pub fn write(
    s0: Session,
    lists0: &mut [u64; LISTS],
    image0: &mut [u8],
    table0: &mut [i64],
    s1: Session,
    lists1: &mut [u64; LISTS],
    image1: &mut [u8],
    table1: &mut [i64],
    rank: u64,
    bytes: &[u8],
) -> Result<(), Refusal>
    ensures value { answered result ≡ pair_write_refusal (pair_of (state_of First s0 lists0.old image0.old table0.old) (state_of Second s1 lists1.old image1.old table1.old)) (request_of rank bytes.now) }
    ensures table1_after { (pair_of (state_of First s0 lists0.new image0.new table0.new) (state_of Second s1 lists1.new image1.new table1.new)) ≡ pair_after_write (pair_of (state_of First s0 lists0.old image0.old table0.old) (state_of Second s1 lists1.old image1.old table1.old)) (request_of rank bytes.now) }
{
    write_within(
        s0, lists0, image0, table0, s1, lists1, image1, table1, rank, bytes, ENDLESS, ENDLESS,
    )
}

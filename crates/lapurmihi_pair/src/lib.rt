// A pair's entries for C and Rust (W-204), with their own promises. The header is include/lapurmihi_pair.h. A parameter whose name ends in 0 or 1 is of
// that file. They are a crate of their own, and in the library that `lapurmihi` makes.
#![tactic(auto)]

ghost use Rattle.std.specs.Prelude.{◌≡◌, cond, ◌+◌, ◌≤◌, eqb, length};
ghost use Rattle.format.specs.declared.head.File.TheVariants.{First, Second};
ghost use Rattle.format.specs.declared.session.Session.{Session};
ghost use Rattle.format.specs.declared.session.Plan.{Plan};
ghost use Rattle.format.specs.declared.loaded.Loaded.{Loaded};
ghost use Rattle.format.specs.declared.loaded.ByteCount.{ByteCount};
ghost use Rattle.format.specs.Session.{state_of};
ghost use Rattle.format.specs.Open.{opening_of};
ghost use Rattle.format.specs.Write.{request_of};
ghost use Rattle.format.specs.Reads.{container_of};
ghost use Rattle.pairs.specs.declared.PairNeeded.{PairNeeded};
ghost use Rattle.pairs.specs.declared.PairOpened.{PairOpened};
ghost use Rattle.pairs.specs.declared.PairClosed.{PairClosed};
ghost use Rattle.pairs.specs.declared.PairLoaded.{PairLoaded};
ghost use Rattle.pairs.specs.declared.PairPart.{PairPart};
ghost use Rattle.pairs.specs.Open.{pair_needs, pair_opened, pair_images, pair_tables};
ghost use Rattle.pairs.specs.Sessions.{pair_of, pair_write_refusal, pair_after_write, pair_closed, pair_close_images};
ghost use Rattle.pairs.specs.Load.{pair_loaded, pair_load_tables};
ghost use Rattle.pairs.specs.Reads.{loaded_pair, pair_part, pair_total, pair_read_answer, pair_read_output};

use format::head::LISTS;
use format::loaded::{ByteCount, Loaded};
use format::refusal;
use format::session::{Plan, Session};
use pairs::{PairClosed, PairLoaded, PairNeeded, PairOpened, PairPart};

#[unsafe(no_mangle)]
pub extern "C" fn lapur_pair_needs(
    plan0: Plan,
    ranks0: &[u64],
    sizes0: &[u64],
    prefix0: &[u8],
    plan1: Plan,
    ranks1: &[u64],
    sizes1: &[u64],
    prefix1: &[u8],
) -> PairNeeded
    ensures { result ≡ pair_needs (opening_of First plan0 ranks0.now sizes0.now prefix0.now) (opening_of Second plan1 ranks1.now sizes1.now prefix1.now) }
{
    PairNeeded::from(pair::needs(
        plan0, ranks0, sizes0, prefix0, plan1, ranks1, sizes1, prefix1,
    ))
}

#[unsafe(no_mangle)]
pub extern "C" fn lapur_pair_open(
    plan0: Plan,
    ranks0: &[u64],
    sizes0: &[u64],
    prefix0: &[u8],
    image0: &mut [u8],
    table0: &mut [i64],
    plan1: Plan,
    ranks1: &[u64],
    sizes1: &[u64],
    prefix1: &[u8],
    image1: &mut [u8],
    table1: &mut [i64],
) -> PairOpened
    ensures value { result ≡ pair_opened (opening_of First plan0 ranks0.now sizes0.now prefix0.now) (opening_of Second plan1 ranks1.now sizes1.now prefix1.now) image0.old table0.old image1.old table1.old }
    ensures image1_after { (image0.new, image1.new) ≡ pair_images (opening_of First plan0 ranks0.now sizes0.now prefix0.now) (opening_of Second plan1 ranks1.now sizes1.now prefix1.now) image0.old table0.old image1.old table1.old }
    ensures table1_after { (table0.new, table1.new) ≡ pair_tables (opening_of First plan0 ranks0.now sizes0.now prefix0.now) (opening_of Second plan1 ranks1.now sizes1.now prefix1.now) image0.old table0.old image1.old table1.old }
{
    pair::open(
        plan0, ranks0, sizes0, prefix0, image0, table0, plan1, ranks1, sizes1, prefix1, image1,
        table1,
    )
}

#[unsafe(no_mangle)]
pub extern "C" fn lapur_pair_write_lent(
    s0: Session,
    lists0: &mut [u64; LISTS],
    image0: &mut [u8],
    table0: &mut [i64],
    s1: Session,
    lists1: &mut [u64; LISTS],
    image1: &mut [u8],
    table1: &mut [i64],
    rank: u64,
    bytes: &[u8],
) -> u32
    ensures value { result ≡ pair_write_refusal (pair_of (state_of First s0 lists0.old image0.old table0.old) (state_of Second s1 lists1.old image1.old table1.old)) (request_of rank bytes.now) }
    ensures table1_after { (pair_of (state_of First s0 lists0.new image0.new table0.new) (state_of Second s1 lists1.new image1.new table1.new)) ≡ pair_after_write (pair_of (state_of First s0 lists0.old image0.old table0.old) (state_of Second s1 lists1.old image1.old table1.old)) (request_of rank bytes.now) }
{
    let answer = pair::write(
        s0, lists0, image0, table0, s1, lists1, image1, table1, rank, bytes,
    );
    refusal::answered(answer)
}

#[unsafe(no_mangle)]
pub extern "C" fn lapur_pair_close_lent(
    s0: Session,
    lists0: &[u64; LISTS],
    image0: &mut [u8],
    table0: &[i64],
    s1: Session,
    lists1: &[u64; LISTS],
    image1: &mut [u8],
    table1: &[i64],
) -> PairClosed
    ensures value { result ≡ pair_closed (pair_of (state_of First s0 lists0.now image0.old table0.now) (state_of Second s1 lists1.now image1.old table1.now)) }
    ensures image1_after { (image0.new, image1.new) ≡ pair_close_images (pair_of (state_of First s0 lists0.now image0.old table0.now) (state_of Second s1 lists1.now image1.old table1.now)) }
{
    let answer = pair::close(s0, lists0, image0, table0, s1, lists1, image1, table1);
    PairClosed::of(s0, s1, answer)
}

#[unsafe(no_mangle)]
pub extern "C" fn lapur_pair_load(
    image0: &[u8],
    table0: &mut [i64],
    image1: &[u8],
    table1: &mut [i64],
) -> PairLoaded
    ensures value { result ≡ pair_loaded image0.now image1.now table0.old table1.old }
    ensures table1_after { (table0.new, table1.new) ≡ pair_load_tables image0.now image1.now table0.old table1.old }
{
    pair::load(image0, table0, image1, table1)
}

#[unsafe(no_mangle)]
pub extern "C" fn lapur_pair_chunk_lent(
    l0: Loaded,
    lists0: &[u64; LISTS],
    image0: &[u8],
    table0: &[i64],
    l1: Loaded,
    lists1: &[u64; LISTS],
    image1: &[u8],
    table1: &[i64],
    rank: u64,
    chunk: u64,
) -> PairPart
    ensures value { result ≡ pair_part (loaded_pair (container_of First l0 lists0.now image0.now table0.now) (container_of Second l1 lists1.now image1.now table1.now)) rank chunk }
    ensures length_in_bounds { result.start + result.length ≤ length (cond (eqb result.file 0) image0.now image1.now) }
{
    PairPart::from(pair::part(
        l0, lists0, image0, table0, l1, lists1, image1, table1, rank, chunk,
    ))
}

#[unsafe(no_mangle)]
pub extern "C" fn lapur_pair_total_lent(
    l0: Loaded,
    lists0: &[u64; LISTS],
    image0: &[u8],
    table0: &[i64],
    l1: Loaded,
    lists1: &[u64; LISTS],
    image1: &[u8],
    table1: &[i64],
    rank: u64,
) -> ByteCount
    ensures { result ≡ pair_total (loaded_pair (container_of First l0 lists0.now image0.now table0.now) (container_of Second l1 lists1.now image1.now table1.now)) rank }
{
    ByteCount::from(pair::total(l0, lists0, image0, table0, l1, lists1, image1, table1, rank))
}

#[unsafe(no_mangle)]
pub extern "C" fn lapur_pair_read_lent(
    l0: Loaded,
    lists0: &[u64; LISTS],
    image0: &[u8],
    table0: &[i64],
    l1: Loaded,
    lists1: &[u64; LISTS],
    image1: &[u8],
    table1: &[i64],
    rank: u64,
    p: u64,
    out: &mut [u8],
) -> ByteCount
    ensures value { result ≡ pair_read_answer (loaded_pair (container_of First l0 lists0.now image0.now table0.now) (container_of Second l1 lists1.now image1.now table1.now)) rank p out.old }
    ensures out_after { out.new ≡ pair_read_output (loaded_pair (container_of First l0 lists0.now image0.now table0.now) (container_of Second l1 lists1.now image1.now table1.now)) rank p out.old }
{
    let copied = pair::read(
        l0, lists0, image0, table0, l1, lists1, image1, table1, rank, p, out,
    );
    ByteCount::from(copied.map(|bytes| bytes as u64))
}

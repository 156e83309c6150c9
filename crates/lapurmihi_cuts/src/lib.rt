// The calls that store into an image, within a budget of byte stores, for C and Rust: what a power cut leaves, for a program's own tests. They are a
// library of their own, so that in the other ones the compiler sees that a plain call has no budget. The header is include/lapurmihi_cuts.h.
#![tactic(auto)]

ghost use Rattle.std.specs.Prelude.{◌≡◌};
ghost use Rattle.format.specs.declared.head.File.TheVariants.{Single, First, Second};
ghost use Rattle.format.specs.declared.session.Session.{Session};
ghost use Rattle.format.specs.declared.session.Plan.{Plan};
ghost use Rattle.format.specs.declared.session.Opened.{Opened};
ghost use Rattle.format.specs.declared.session.Closed.{Closed};
ghost use Rattle.format.specs.Session.{state_of};
ghost use Rattle.format.specs.Open.{opening_of, open_answer, open_found, open_table};
ghost use Rattle.format.specs.Write.{request_of, write_refusal, write_found};
ghost use Rattle.format.specs.Close.{close_answer, close_found};
ghost use Rattle.pairs.specs.declared.PairOpened.{PairOpened};
ghost use Rattle.pairs.specs.declared.PairClosed.{PairClosed};
ghost use Rattle.pairs.specs.Open.{pair_opened, pair_found, pair_tables};
ghost use Rattle.pairs.specs.Sessions.{pair_of, pair_write_refusal, pair_write_found, pair_closed, pair_close_found};

use format::head::LISTS;
use format::refusal;
use format::session::{Closed, Opened, Plan, Session};
use pairs::{PairClosed, PairOpened};

#[unsafe(no_mangle)]
pub extern "C" fn lapur_open_within(
    plan: Plan,
    ranks: &[u64],
    sizes: &[u64],
    prefix: &[u8],
    image: &mut [u8],
    table: &mut [i64],
    budget: u64,
) -> Opened
    ensures value { result ≡ open_answer (opening_of Single plan ranks.now sizes.now prefix.now) image.old table.old }
    ensures image_after { image.new ≡ open_found (opening_of Single plan ranks.now sizes.now prefix.now) image.old table.old budget }
    ensures table_after { table.new ≡ open_table (opening_of Single plan ranks.now sizes.now prefix.now) image.old table.old }
{
    container::open_within(plan, ranks, sizes, prefix, image, table, budget)
}

#[unsafe(no_mangle)]
pub extern "C" fn lapur_write_within_lent(
    s: Session,
    lists: &mut [u64; LISTS],
    image: &mut [u8],
    table: &mut [i64],
    task: u64,
    bytes: &[u8],
    budget: u64,
) -> u32
    ensures value { result ≡ write_refusal (state_of Single s lists.old image.old table.old) (request_of task bytes.now) }
    ensures table_after { state_of Single s lists.new image.new table.new ≡ write_found (state_of Single s lists.old image.old table.old) (request_of task bytes.now) budget }
{
    refusal::answered(container::write_within(s, lists, image, table, task, bytes, budget))
}

#[unsafe(no_mangle)]
pub extern "C" fn lapur_close_within_lent(
    s: Session,
    lists: &[u64; LISTS],
    image: &mut [u8],
    table: &[i64],
    budget: u64,
) -> Closed
    ensures value { result ≡ close_answer (state_of Single s lists.now image.old table.now) }
    ensures image_after { image.new ≡ close_found (state_of Single s lists.now image.old table.now) budget }
{
    Closed::of(s, container::close_within(s, lists, image, table, budget))
}

// ---- of a pair, with a budget for each image

#[unsafe(no_mangle)]
pub extern "C" fn lapur_pair_open_within(
    plan0: Plan,
    ranks0: &[u64],
    sizes0: &[u64],
    prefix0: &[u8],
    image0: &mut [u8],
    table0: &mut [i64],
    plan1: Plan,
    ranks1: &[u64],
    sizes1: &[u64],
    prefix1: &[u8],
    image1: &mut [u8],
    table1: &mut [i64],
    budget0: u64,
    budget1: u64,
) -> PairOpened
    ensures value { result ≡ pair_opened (opening_of First plan0 ranks0.now sizes0.now prefix0.now) (opening_of Second plan1 ranks1.now sizes1.now prefix1.now) image0.old table0.old image1.old table1.old }
    ensures image1_after { (image0.new, image1.new) ≡ pair_found (opening_of First plan0 ranks0.now sizes0.now prefix0.now) (opening_of Second plan1 ranks1.now sizes1.now prefix1.now) image0.old table0.old image1.old table1.old budget0 budget1 }
    ensures table1_after { (table0.new, table1.new) ≡ pair_tables (opening_of First plan0 ranks0.now sizes0.now prefix0.now) (opening_of Second plan1 ranks1.now sizes1.now prefix1.now) image0.old table0.old image1.old table1.old }
{
    pair::open_within(
        plan0, ranks0, sizes0, prefix0, image0, table0, plan1, ranks1, sizes1, prefix1, image1,
        table1, budget0, budget1,
    )
}

#[unsafe(no_mangle)]
pub extern "C" fn lapur_pair_write_within_lent(
    s0: Session,
    lists0: &mut [u64; LISTS],
    image0: &mut [u8],
    table0: &mut [i64],
    s1: Session,
    lists1: &mut [u64; LISTS],
    image1: &mut [u8],
    table1: &mut [i64],
    rank: u64,
    bytes: &[u8],
    budget0: u64,
    budget1: u64,
) -> u32
    ensures value { result ≡ pair_write_refusal (pair_of (state_of First s0 lists0.old image0.old table0.old) (state_of Second s1 lists1.old image1.old table1.old)) (request_of rank bytes.now) }
    ensures table1_after { (pair_of (state_of First s0 lists0.new image0.new table0.new) (state_of Second s1 lists1.new image1.new table1.new)) ≡ pair_write_found (pair_of (state_of First s0 lists0.old image0.old table0.old) (state_of Second s1 lists1.old image1.old table1.old)) (request_of rank bytes.now) budget0 budget1 }
{
    let answer = pair::write_within(
        s0, lists0, image0, table0, s1, lists1, image1, table1, rank, bytes, budget0, budget1,
    );
    refusal::answered(answer)
}

#[unsafe(no_mangle)]
pub extern "C" fn lapur_pair_close_within_lent(
    s0: Session,
    lists0: &[u64; LISTS],
    image0: &mut [u8],
    table0: &[i64],
    s1: Session,
    lists1: &[u64; LISTS],
    image1: &mut [u8],
    table1: &[i64],
    budget0: u64,
    budget1: u64,
) -> PairClosed
    ensures value { result ≡ pair_closed (pair_of (state_of First s0 lists0.now image0.old table0.now) (state_of Second s1 lists1.now image1.old table1.now)) }
    ensures image1_after { (image0.new, image1.new) ≡ pair_close_found (pair_of (state_of First s0 lists0.now image0.old table0.now) (state_of Second s1 lists1.now image1.old table1.now)) budget0 budget1 }
{
    let answer = pair::close_within(
        s0, lists0, image0, table0, s1, lists1, image1, table1, budget0, budget1,
    );
    PairClosed::of(s0, s1, answer)
}

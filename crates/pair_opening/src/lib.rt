// Opening a pair (W-204): its tests, both records, and what it stores into the two images and tables. A parameter whose name ends in 0 or 1 is of
// that file; each file has its own whole list of arguments.
#![tactic(auto)]

ghost use Rattle.std.specs.Prelude.{◌≡◌, Ok};
ghost use Rattle.format.specs.declared.head.File.TheVariants.{First, Second};
ghost use Rattle.format.specs.declared.session.Plan.{Plan};
ghost use Rattle.format.specs.Record.{no_lists};
ghost use Rattle.format.specs.Session.{no_session};
ghost use Rattle.format.specs.Open.{opening_of};
ghost use Rattle.format.specs.Refusals.{number_of, answered};
ghost use Rattle.pairs.specs.Answers.{pair_needed_of};
ghost use Rattle.pairs.specs.declared.PairOpened.{PairOpened};
ghost use Rattle.pairs.specs.Open.{pair_needs, pair_open_refusal, pair_opened, pair_found, pair_images, pair_tables};
ghost use Rattle.pair_opening.specs.Short.{short_of};

use format::head::{File, LISTS};
use format::limit;
use format::refusal::Refusal;
use format::session::{Plan, Session};
use pairs::{PairOpened, PairRoom};
use rules::heads;

// The lengths that an opening requires of both images and tables, or the refusal of its plans: file 0's up to 20, file 1's so, then 8 for the ranks
// of both.
pub fn needs(
    plan0: Plan,
    ranks0: &[u64],
    sizes0: &[u64],
    prefix0: &[u8],
    plan1: Plan,
    ranks1: &[u64],
    sizes1: &[u64],
    prefix1: &[u8],
) -> Result<PairRoom, Refusal>
    ensures { pair_needed_of result ≡ pair_needs (opening_of First plan0 ranks0.now sizes0.now prefix0.now) (opening_of Second plan1 ranks1.now sizes1.now prefix1.now) }
{
    let one = opening::needs(plan0, ranks0, sizes0, prefix0)?;
    let two = opening::needs(plan1, ranks1, sizes1, prefix1)?;
    if !ranks::none_lacking(ranks0, ranks1) {
        return Err(Refusal::BadRank);
    }
    Ok(PairRoom {
        image0: one.image + mapping::length_of(ranks0.len(), ranks1.len()),
        cells0: one.cells,
        image1: two.image,
        cells1: two.cells,
    })
}

// 18 for file 0 and for file 1, by the lengths of what is lent.
fn test_room(
    room: PairRoom,
    image0: u64,
    cells0: u64,
    image1: u64,
    cells1: u64,
) -> Result<(), Refusal>
    ensures { answered result ≡ short_of (pair_needed_of (Ok room)) image0 cells0 image1 cells1 }
{
    if image0 < room.image0 {
        return Err(Refusal::TooShort);
    }
    if cells0 < room.cells0 {
        return Err(Refusal::TooShort);
    }
    if image1 < room.image1 {
        return Err(Refusal::TooShort);
    }
    if cells1 < room.cells1 {
        return Err(Refusal::TooShort);
    }
    Ok(())
}

// The plans' tests, and then 18.
fn test_opening(
    plan0: Plan,
    ranks0: &[u64],
    sizes0: &[u64],
    prefix0: &[u8],
    image0: u64,
    cells0: u64,
    plan1: Plan,
    ranks1: &[u64],
    sizes1: &[u64],
    prefix1: &[u8],
    image1: u64,
    cells1: u64,
) -> Result<(), Refusal>
    ensures { answered result ≡ pair_open_refusal (opening_of First plan0 ranks0.now sizes0.now prefix0.now) (opening_of Second plan1 ranks1.now sizes1.now prefix1.now) image0 cells0 image1 cells1 }
{
    let room = needs(
        plan0, ranks0, sizes0, prefix0, plan1, ranks1, sizes1, prefix1,
    )?;
    test_room(room, image0, cells0, image1, cells1)
}

// A refusal beside two records of zeros marked closed.
fn no_pair(refusal: Refusal) -> PairOpened
    ensures { result ≡ record { session0 = no_session; lists0 = no_lists; session1 = no_session; lists1 = no_lists; refusal = number_of refusal } }
{
    let head = heads::no_head();
    let none = Session {
        head,
        planned: 0,
        closed: 1,
    };
    let lists = [0; LISTS];
    PairOpened {
        session0: none,
        lists0: lists,
        session1: none,
        lists1: lists,
        refusal: refusal.number(),
    }
}

// Opens a pair: file 0 up to 20, file 1 so, then 8 for the ranks of both, then 18 for file 0, then for file 1. Of the byte stores into each image
// only the first of its budget are made.
pub fn open_within(
    plan0: Plan,
    ranks0: &[u64],
    sizes0: &[u64],
    prefix0: &[u8],
    image0: &mut [u8],
    table0: &mut [i64],
    plan1: Plan,
    ranks1: &[u64],
    sizes1: &[u64],
    prefix1: &[u8],
    image1: &mut [u8],
    table1: &mut [i64],
    budget0: u64,
    budget1: u64,
) -> PairOpened
    ensures value { result ≡ pair_opened (opening_of First plan0 ranks0.now sizes0.now prefix0.now) (opening_of Second plan1 ranks1.now sizes1.now prefix1.now) image0.old table0.old image1.old table1.old }
    ensures image1_after { (image0.new, image1.new) ≡ pair_found (opening_of First plan0 ranks0.now sizes0.now prefix0.now) (opening_of Second plan1 ranks1.now sizes1.now prefix1.now) image0.old table0.old image1.old table1.old budget0 budget1 }
    ensures table1_after { (table0.new, table1.new) ≡ pair_tables (opening_of First plan0 ranks0.now sizes0.now prefix0.now) (opening_of Second plan1 ranks1.now sizes1.now prefix1.now) image0.old table0.old image1.old table1.old }
{
    if let Err(refusal) = test_opening(
        plan0,
        ranks0,
        sizes0,
        prefix0,
        image0.len() as u64,
        table0.len() as u64,
        plan1,
        ranks1,
        sizes1,
        prefix1,
        image1.len() as u64,
        table1.len() as u64,
    ) {
        return no_pair(refusal);
    }
    let one = opening::begin(
        File::First,
        plan0,
        ranks0,
        sizes0,
        prefix0,
        image0,
        table0,
        budget0,
    );
    let two = opening::begin(
        File::Second,
        plan1,
        ranks1,
        sizes1,
        prefix1,
        image1,
        table1,
        budget1,
    );
    let lists0 = one.lists;
    let lists1 = two.lists;
    PairOpened {
        session0: one.session,
        lists0,
        session1: two.session,
        lists1,
        refusal: 0,
    }
}

// The same, with all of its stores.
pub fn open(
    plan0: Plan,
    ranks0: &[u64],
    sizes0: &[u64],
    prefix0: &[u8],
    image0: &mut [u8],
    table0: &mut [i64],
    plan1: Plan,
    ranks1: &[u64],
    sizes1: &[u64],
    prefix1: &[u8],
    image1: &mut [u8],
    table1: &mut [i64],
) -> PairOpened
    ensures value { result ≡ pair_opened (opening_of First plan0 ranks0.now sizes0.now prefix0.now) (opening_of Second plan1 ranks1.now sizes1.now prefix1.now) image0.old table0.old image1.old table1.old }
    ensures image1_after { (image0.new, image1.new) ≡ pair_images (opening_of First plan0 ranks0.now sizes0.now prefix0.now) (opening_of Second plan1 ranks1.now sizes1.now prefix1.now) image0.old table0.old image1.old table1.old }
    ensures table1_after { (table0.new, table1.new) ≡ pair_tables (opening_of First plan0 ranks0.now sizes0.now prefix0.now) (opening_of Second plan1 ranks1.now sizes1.now prefix1.now) image0.old table0.old image1.old table1.old }
{
    open_within(
        plan0,
        ranks0,
        sizes0,
        prefix0,
        image0,
        table0,
        plan1,
        ranks1,
        sizes1,
        prefix1,
        image1,
        table1,
        limit::ENDLESS,
        limit::ENDLESS,
    )
}

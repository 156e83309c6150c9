// Loading a pair (W-204): both files judged and then the mapping, before either table is filled. A parameter whose name ends in 0 or 1 is of that
// file.
#![tactic(auto)]

ghost use Rattle.std.specs.Prelude.{◌≡◌, OnErr};
ghost use Rattle.format.specs.Record.{no_lists};
ghost use Rattle.pairs.specs.Load.{pair_checked, pair_loaded, pair_load_tables};
ghost use Rattle.pair_loading.specs.Answers.{refused_pair, pair_loaded_of};

use format::fault::{Broken, Fault};
use format::head::{File, Head, LISTS};
use format::loaded::Loaded;
use layout::Layout;
use pairs::PairLoaded;

// What is broken, and in which file.
#[derive(Clone, Copy)]
pub struct PairBroken {
    pub file: u32,
    pub broken: Broken,
}

// The same as `judge`; a refusal leaves in the lists what was judged before it.
fn judge_into(
    image0: &[u8],
    cells0: usize,
    lists0: &mut [u64; LISTS],
    image1: &[u8],
    cells1: usize,
    lists1: &mut [u64; LISTS],
) -> Result<(Loaded, Loaded), PairBroken>
    ensures { pair_loaded_of result lists0.new lists1.new ≡ pair_checked image0.now image1.now cells0 cells1 }
{
    let loaded0 = loading::judge(File::First, image0, cells0, lists0).map_err(|broken| PairBroken {
        file: 0,
        broken,
    })?;
    let loaded1 = loading::judge(File::Second, image1, cells1, lists1).map_err(|broken| PairBroken {
        file: 1,
        broken,
    })?;
    let end = Layout::of(loaded0.head, lists0).meta2_end(loaded0.maxchunks);
    let big = loaded0.head.order == 1;
    let ranks0 = &lists0[..loaded0.head.n as usize];
    let ranks1 = &lists1[..loaded1.head.n as usize];
    mapping::judge(image0, end as usize, big, ranks0, ranks1).map_err(|broken| PairBroken {
        file: 0,
        broken,
    })?;
    Ok((loaded0, loaded1))
}

// Both images judged, for tables of so many cells: all tests of file 0, then all of file 1, then 25; no table is touched. Where they pass, both
// records are handed back, and the lists that are lent are theirs; refused, both are zeros.
pub fn judge(
    image0: &[u8],
    cells0: usize,
    lists0: &mut [u64; LISTS],
    image1: &[u8],
    cells1: usize,
    lists1: &mut [u64; LISTS],
) -> Result<(Loaded, Loaded), PairBroken>
    ensures value { pair_loaded_of result lists0.new lists1.new ≡ pair_checked image0.now image1.now cells0 cells1 }
    ensures refused { OnErr result ((lists0.new ≡ no_lists) × (lists1.new ≡ no_lists)) }
{
    let answer = judge_into(image0, cells0, lists0, image1, cells1, lists1);
    if answer.is_err() {
        lists0.fill(0);
        lists1.fill(0);
    }
    answer
}

// What is broken and in which file, beside two records of zeros marked closed.
fn no_pair(file: u32, broken: Broken) -> PairLoaded
    ensures { result ≡ refused_pair file broken }
{
    let none = Loaded {
        head: Head::default(),
        maxchunks: 0,
        closed: 1,
    };
    PairLoaded {
        loaded0: none,
        lists0: [0; LISTS],
        loaded1: none,
        lists1: [0; LISTS],
        refusal: broken.refusal.number(),
        file,
        fault: broken.fault,
    }
}

// Judges a pair. Accepted, both records are handed back, and of each table the first n times maxchunks cells are filled; refused, what is broken is,
// beside two records of zeros marked closed.
pub fn load(image0: &[u8], table0: &mut [i64], image1: &[u8], table1: &mut [i64]) -> PairLoaded
    ensures value { result ≡ pair_loaded image0.now image1.now table0.old table1.old }
    ensures table1_after { (table0.new, table1.new) ≡ pair_load_tables image0.now image1.now table0.old table1.old }
{
    let mut lists0 = [0; LISTS];
    let mut lists1 = [0; LISTS];
    let (cells0, cells1) = (table0.len(), table1.len());
    match judge(image0, cells0, &mut lists0, image1, cells1, &mut lists1) {
        Ok((loaded0, loaded1)) => {
            loading::fill(image0, loaded0, &lists0, table0);
            loading::fill(image1, loaded1, &lists1, table1);
            PairLoaded {
                loaded0,
                lists0,
                loaded1,
                lists1,
                refusal: 0,
                file: 0,
                fault: Fault::default(),
            }
        }
        Err(PairBroken { file, broken }) => no_pair(file, broken),
    }
}

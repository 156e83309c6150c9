// The ranks of both files of a pair (W-204): which task carries each, and whether one is lacking; each in time that grows with the tasks of both.
#![tactic(auto)]

ghost use Rattle.std.specs.Prelude.{◌≡◌, ◌+◌, ◌*◌, ◌≤◌, eqb, length, position, replicate};
ghost use Rattle.format.specs.Limits.{max_tasks};
ghost use Rattle.format.specs.Record.{entry, rank_of};
ghost use Rattle.pairs.specs.Ranks.{none_lacking};
ghost use Rattle.ranks.specs.Holders.{Held, holder, holders, some_task};

use format::head::LISTS;
use pairs::PAIR_TASKS;

// Each task to its rank, where the rank is below `size` and has no task yet; `before` tasks come before them in the row.
fn put_holders(holders: &mut [u64], ranks: &[u64], before: u64, size: u64)
    requires { (size ≤ length holders.old) × (before + length ranks.now ≤ size) }
    ensures { Held size before (length ranks.now) (entry ranks.now) holders.old holders.new }
{
    for (i, rank) in ranks.iter().enumerate() {
        if *rank < size {
            let holder = &mut holders[*rank as usize];
            if *holder == 0 {
                *holder = before + i as u64 + 1;
            }
        }
    }
}

// The task of each rank, into a row of zeros.
fn put_all_holders(found: &mut [u64; PAIR_TASKS], first: &[u64], second: &[u64])
    requires { (found.old ≡ replicate (2 * max_tasks) 0) × (length first.now ≤ max_tasks) × (length second.now ≤ max_tasks) }
    ensures { found.new ≡ holders (length first.now) (length second.now) (entry first.now) (entry second.now) }
{
    let before = first.len() as u64;
    let size = before + second.len() as u64;
    put_holders(found, first, 0, size);
    put_holders(found, second, before, size);
}

// The task of each rank.
pub fn all_holders(first: &[u64], second: &[u64]) -> [u64; PAIR_TASKS]
    requires { (length first.now ≤ max_tasks) × (length second.now ≤ max_tasks) }
    ensures { result ≡ holders (length first.now) (length second.now) (entry first.now) (entry second.now) }
{
    let mut found = [0; PAIR_TASKS];
    put_all_holders(&mut found, first, second);
    found
}

// Whether every rank below the number of tasks has one. The row is its own, since one that `all_holders` hands back is copied, which calls of a pair
// with few tasks would notice.
pub fn none_lacking(first: &[u64], second: &[u64]) -> bool
    requires { (length first.now ≤ max_tasks) × (length second.now ≤ max_tasks) }
    ensures { result ≡ none_lacking (length first.now) (length second.now) (entry first.now) (entry second.now) }
{
    let mut found = [0; PAIR_TASKS];
    put_all_holders(&mut found, first, second);
    !found[..first.len() + second.len()].contains(&0)
}

// The first task that carries a rank, counted from 0.
fn carrier_of(ranks: &[u64], rank: u64) -> Option<usize>
    ensures { result ≡ position (λ other. eqb other rank) ranks.now }
{
    ranks.iter().position(|other| *other == rank)
}

// The task that carries one rank, of either file.
pub fn holder_of(first: &[u64], second: &[u64], rank: u64) -> Option<u64>
    requires { (length first.now ≤ max_tasks) × (length second.now ≤ max_tasks) }
    ensures { result ≡ some_task (holder (length first.now) (length second.now) (entry first.now) (entry second.now) rank) }
{
    if let Some(i) = carrier_of(first, rank) {
        return Some(i as u64 + 1);
    }
    let j = carrier_of(second, rank)?;
    Some((first.len() + j) as u64 + 1)
}

// The same by the lists of two records.
pub fn task_of(
    lists0: &[u64; LISTS],
    n: u32,
    lists1: &[u64; LISTS],
    m: u32,
    rank: u64,
) -> Option<u64>
    requires { (n ≤ max_tasks) × (m ≤ max_tasks) }
    ensures { result ≡ some_task (holder n m (rank_of lists0.now) (rank_of lists1.now) rank) }
{
    holder_of(&lists0[..n as usize], &lists1[..m as usize], rank)
}

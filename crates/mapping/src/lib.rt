// The mapping of a pair (W-204), which stands after META2 of file 0: stored within a budget of byte stores, and judged where it stands. `first` and
// `second` are the ranks of file 0's tasks and of file 1's.
#![tactic(auto)]

ghost use Rattle.std.specs.Prelude.{◌≡◌, true, ◌+◌, ◌*◌, ◌≤◌, ◌<◌, ◌^◌, ltb, length, pos, suc};
ghost use Rattle.lists.specs.Below.{join_below};
ghost use Rattle.lists.specs.Splice.{splice};
ghost use Rattle.lists.specs.Stores.{Spends};
ghost use Rattle.format.specs.declared.fault.Broken.{Broken};
ghost use Rattle.format.specs.declared.refusal.Refusal.TheVariants.{BadMapping};
ghost use Rattle.format.specs.Limits.{max_tasks};
ghost use Rattle.format.specs.Record.{entry};
ghost use Rattle.format.specs.Refusals.{fault_of, kind_of, verdict, judged};
ghost use Rattle.format.specs.Judge.{end_fault};
ghost use Rattle.pairs.specs.Ranks.{none_lacking};
ghost use Rattle.pairs.specs.Mapping.{mapping_length, mapping, entry_tests, mapping_tests};
ghost use Rattle.mapping.specs.Entries.{task_in, entry_bytes, AllHeld, named_tests, Listed};

use endian::read;
use format::fault::{Broken, Fault, Field};
use format::refusal::Refusal;
use pairs::PAIR_TASKS;
use stores::{memory, numbers};

// The most bytes of a mapping.
const MOST: usize = 4 + 8 * PAIR_TASKS;

// The bytes of a mapping of n and m tasks.
pub fn length_of(n: usize, m: usize) -> u64
    requires { (n ≤ max_tasks) × (m ≤ max_tasks) }
    ensures { result ≡ mapping_length n m }
{
    4 + 8 * (n as u64 + m as u64)
}

// The task of a row in its own file, counted from 0.
fn task_in(n: u64, holder: u64) -> u64
    requires { 1 ≤ holder }
    ensures { result ≡ task_in n holder }
{
    if n < holder {
        holder - n - 1
    } else {
        holder - 1
    }
}

// One entry: the file's number and the task's.
fn put_entry(bytes: &mut [u8], at: usize, big: bool, second: bool, task: u32)
    requires { at + 8 ≤ length bytes.old }
    ensures { bytes.new ≡ splice bytes.old at (entry_bytes big second task) }
{
    numbers::put(bytes, at, big, second as u32);
    numbers::put(bytes, at + 4, big, task);
}

// The entries of all ranks, from 4 on, where file 0 has n tasks.
fn put_entries(bytes: &mut [u8], holders: &[u64], n: u64, big: bool)
    requires { AllHeld holders.now × (4 + 8 * length holders.now ≤ length bytes.old) }
    ensures { bytes.new ≡ splice bytes.old 4 (join_below (length holders.now) (λ r. entry_bytes big (ltb n (entry holders.now r)) (task_in n (entry holders.now r)))) }
{
    for (r, &holder) in holders.iter().enumerate() {
        let task = task_in(n, holder) as u32;
        put_entry(bytes, 4 + 8 * r, big, n < holder, task);
    }
}

// The whole mapping, from `at` on.
pub fn put(
    image: &mut [u8],
    at: usize,
    first: &[u64],
    second: &[u64],
    big: bool,
    budget: u64,
) -> u64
    requires few { (length first.now ≤ max_tasks) × (length second.now ≤ max_tasks) }
    requires second_value { none_lacking (length first.now) (length second.now) (entry first.now) (entry second.now) ≡ true }
    requires in_bounds { at + mapping_length (length first.now) (length second.now) ≤ length image.old }
    ensures { Spends budget image.old at (mapping (length first.now) (length second.now) (entry first.now) (entry second.now) big) image.new result }
{
    let mut bytes = [0; MOST];
    let size = first.len() + second.len();
    numbers::put(&mut bytes, 0, big, size as u32);
    let holders = ranks::all_holders(first, second);
    put_entries(&mut bytes, &holders[..size], first.len() as u64, big);
    let end = 4 + 8 * size;
    memory::copy_within(&mut image[at..], &bytes[..end], budget)
}

// A number of the entry of a rank, which stands at `at`, breaks its rule.
fn bad_entry(field: Field, rank: u32, at: u64, says: i64, least: u64, most: u64) -> Broken
    requires { (rank < 2 * max_tasks) × (least < 2 ^ 63) × (most < 2 ^ 63) }
    ensures { result ≡ record { refusal = BadMapping; fault = fault_of (kind_of field) (suc rank) 0 at says (pos least) (pos most) } }
{
    Broken {
        refusal: Refusal::BadMapping,
        fault: Fault {
            place: at,
            says,
            least: least as i64,
            most: most as i64,
            field: field.kind(),
            task: rank + 1,
            chunk: 0,
        },
    }
}

// The task that an entry names, of the tasks of its file: that there is one, and that it carries the rank.
fn judge_task(ranks: &[u64], task: u32, rank: u32, at: u64) -> Result<(), Broken>
    requires { Listed ranks.now × (rank < 2 * max_tasks) }
    ensures { judged result ≡ verdict (named_tests (length ranks.now) (entry ranks.now) task rank at) }
{
    let Some(&carried) = ranks.get(task as usize) else {
        let says = i64::from(task.cast_signed());
        let last = ranks.len() as u64 - 1;
        return Err(bad_entry(Field::EntryTask, rank, at, says, 0, last));
    };
    let asked = rank as u64;
    if carried != asked {
        return Err(bad_entry(Field::EntryRank, rank, at, carried as i64, asked, asked));
    }
    Ok(())
}

// The entry of one rank, of a mapping that starts at `start`.
fn judge_entry(
    image: &[u8],
    start: usize,
    big: bool,
    first: &[u64],
    second: &[u64],
    rank: usize,
) -> Result<(), Broken>
    requires { Listed first.now × Listed second.now × (rank < 2 * max_tasks) × (start + 4 + 8 * rank + 8 ≤ length image.now) }
    ensures { judged result ≡ verdict (entry_tests (length first.now) (length second.now) (entry first.now) (entry second.now) big image.now start rank) }
{
    let at = start + 4 + 8 * rank;
    let file = read::get::<u32>(image, at, big).value;
    let task = read::get::<u32>(image, at + 4, big).value;
    let place = at as u64;
    let ranks = match file {
        0 => first,
        1 => second,
        _ => {
            let says = i64::from(file.cast_signed());
            return Err(bad_entry(Field::EntryFile, rank as u32, place, says, 0, 1));
        }
    };
    judge_task(ranks, task, rank as u32, place)
}

// All entries, in the order of their ranks.
fn judge_entries(
    image: &[u8],
    start: usize,
    big: bool,
    first: &[u64],
    second: &[u64],
) -> Result<(), Broken>
    requires { Listed first.now × Listed second.now × (start + mapping_length (length first.now) (length second.now) ≤ length image.now) }
    ensures { judged result ≡ verdict (join_below (length first.now + length second.now) (entry_tests (length first.now) (length second.now) (entry first.now) (entry second.now) big image.now start)) }
{
    for rank in 0..first.len() + second.len() {
        judge_entry(image, start, big, first, second, rank)?;
    }
    Ok(())
}

// The image ends before the mapping does.
fn short(len: u64, end: u64) -> Broken
    requires { (len < 2 ^ 63) × (end < 2 ^ 63) }
    ensures { result ≡ record { refusal = BadMapping; fault = end_fault len end } }
{
    faults::not_as_needed(Refusal::BadMapping, Field::Image, len, len, end)
}

// The mapping that starts at `start`: mapping_size, the fit, the entries.
pub fn judge(
    image: &[u8],
    start: usize,
    big: bool,
    first: &[u64],
    second: &[u64],
) -> Result<(), Broken>
    requires { Listed first.now × Listed second.now × (start ≤ length image.now) × (start < 2 ^ 62) }
    ensures { judged result ≡ verdict (mapping_tests (length first.now) (length second.now) (entry first.now) (entry second.now) big image.now start) }
{
    let len = image.len();
    let size = first.len() + second.len();
    let end = 4 + 8 * size;
    let left = len - start;
    if left < 4 {
        return Err(short(len as u64, start as u64 + end as u64));
    }
    let read = read::get::<u32>(image, start, big);
    if read.value as usize != size {
        let says = size as u64;
        return Err(faults::number4(Refusal::BadMapping, Field::MappingSize, read, says, says));
    }
    if left < end {
        return Err(short(len as u64, start as u64 + end as u64));
    }
    judge_entries(image, start, big, first, second)
}

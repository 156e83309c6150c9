// A loaded container stored anew, packed, into a second image: runs of its bytes, each within a budget of byte stores. Each function answers what is left of
// the budget; every store goes through those of `stores`.
#![tactic(auto)]

ghost use Rattle.std.specs.Prelude.{◌≡◌, true, ◌++◌, ◌+◌, ◌-◌, ◌≤◌, pos, length, take, drop, replicate};
ghost use Rattle.lists.specs.Below.{join_below, list_below};
ghost use Rattle.lists.specs.Stores.{Spends};
ghost use Rattle.format.specs.Limits.{blocksize_rule, max_tasks};
ghost use Rattle.format.specs.Layout.{data_start, globalskip};
ghost use Rattle.format.specs.Meta1.{fixed_length};
ghost use Rattle.format.specs.Refusals.{first_failing};
ghost use Rattle.format.specs.Record.{entry, file_in, rank_of};
ghost use Rattle.format.specs.declared.head.Head.{Head};
ghost use Rattle.format.specs.declared.loaded.Loaded.{Loaded};
ghost use Rattle.format.specs.Reads.{container_of, stream_of, total_of};
ghost use Rattle.format.specs.Passed.{Readable};
ghost use Rattle.emit.specs.Parts.{first_fields};
ghost use Rattle.packs.specs.Pack.{pack_tests, packed_size, packed_chunk};
ghost use Rattle.packing_stores.specs.Front.{own_fields, front_bytes};

use format::head::{Head, LISTS};
use format::loaded::Loaded;
use format::{field, head};
use stores::memory;

// The whole stream of a task that the tests allow, from `at` on, chunk by chunk.
pub fn put_stream(
    second: &mut [u8],
    at: usize,
    l: Loaded,
    lists: &[u64; LISTS],
    image: &[u8],
    table: &[i64],
    task: u64,
    budget: u64,
) -> u64
    requires readable { Readable (container_of (file_in l.head) l lists.now image.now table.now) task }
    requires task_in_bounds { at + total_of (container_of (file_in l.head) l lists.now image.now table.now) task ≤ length second.old }
    ensures { Spends budget second.old at (stream_of (container_of (file_in l.head) l lists.now image.now table.now) task) second.new result }
{
    let i = (task - 1) as usize;
    let count = lists[head::COUNTS + i];
    let mut place = at;
    let mut left = budget;
    for k in 0..count {
        let part = chunks::chunk_part(l, lists, image, table, task, k + 1);
        left = memory::copy_within(&mut second[place..], part, left);
        place += part.len();
    }
    left
}

// The one chunk of such a task: its stream, and zeros up to the `holds` bytes that the chunk holds.
pub fn put_chunk(
    second: &mut [u8],
    at: usize,
    holds: usize,
    l: Loaded,
    lists: &[u64; LISTS],
    image: &[u8],
    table: &[i64],
    task: u64,
    budget: u64,
) -> u64
    requires readable { Readable (container_of (file_in l.head) l lists.now image.now table.now) task }
    requires task_bound { (total_of (container_of (file_in l.head) l lists.now image.now table.now) task ≤ holds) × (at + holds ≤ length second.old) }
    ensures { Spends budget second.old at (stream_of (container_of (file_in l.head) l lists.now image.now table.now) task ++ replicate (holds - total_of (container_of (file_in l.head) l lists.now image.now table.now) task) 0) second.new result }
{
    let total = reads::total_of(l, lists, image, table, task) as usize;
    let left = put_stream(second, at, l, lists, image, table, task, budget);
    runs::put_zeros(second, at + total, at + holds, left)
}

// The chunks of all tasks, from D on, each with the packed size that `sizes` has for it.
pub fn put_chunks(
    second: &mut [u8],
    l: Loaded,
    lists: &[u64; LISTS],
    image: &[u8],
    table: &[i64],
    sizes: &[u64],
    budget: u64,
) -> u64
    requires passes { first_failing (pack_tests (container_of (file_in l.head) l lists.now image.now table.now)) ≡ 0 }
    requires sizes_value { take l.head.n sizes.now ≡ list_below l.head.n (packed_size (container_of (file_in l.head) l lists.now image.now table.now)) }
    requires table_in_bounds { data_start l.head.blocksize l.head.n + globalskip l.head.blocksize l.head.n (packed_size (container_of (file_in l.head) l lists.now image.now table.now)) ≤ length second.old }
    ensures { Spends budget second.old (data_start l.head.blocksize l.head.n) (join_below l.head.n (packed_chunk (container_of (file_in l.head) l lists.now image.now table.now))) second.new result }
{
    let n = l.head.n as usize;
    let blocksize = l.head.blocksize;
    let mut place = layout::data_start(l.head.n, blocksize) as usize;
    let mut left = budget;
    for (i, size) in sizes[..n].iter().enumerate() {
        let holds = layout::chunk_holds(*size, blocksize) as usize;
        let task = i as u64 + 1;
        left = put_chunk(second, place, holds, l, lists, image, table, task, left);
        place += holds;
    }
    left
}

// META1 from its second byte up to the ranks: the fields of the head, then the flags and the prefix of the image that is packed.
fn put_fields(second: &mut [u8], h: Head, big: bool, image: &[u8], budget: u64) -> u64
    requires { (fixed_length ≤ length image.now) × (fixed_length ≤ length second.old) }
    ensures { Spends budget second.old 1 (take 35 (drop 1 (first_fields big h)) ++ own_fields image.now) second.new result }
{
    let fields = emit::first_fields(h, big);
    let left = memory::copy_within(&mut second[1..], &fields[1..field::FLAGS_AT], budget);
    memory::copy_within(
        &mut second[field::FLAGS_AT..],
        &image[field::FLAGS_AT..field::RANKS_AT],
        left,
    )
}

// META1 but for its first byte, with the flags and the prefix of the image that is packed, and zeros up to D.
pub fn put_front(
    second: &mut [u8],
    h: Head,
    lists: &[u64; LISTS],
    image: &[u8],
    sizes: &[u64],
    maxchunks: u32,
    start: u64,
    budget: u64,
) -> u64
    requires blocksize_value { (blocksize_rule (pos h.blocksize) ≡ true) × (h.n ≤ max_tasks) }
    requires n_in_bounds { (h.n ≤ length sizes.now) × (fixed_length ≤ length image.now) × (data_start h.blocksize h.n ≤ length second.old) }
    ensures { Spends budget second.old 1 (drop 1 (front_bytes h (rank_of lists.now) (entry sizes.now) image.now maxchunks start)) second.new result }
{
    let big = h.order == 1;
    let n = h.n as usize;
    let from = layout::meta1_end(h.n) as usize;
    let end = layout::data_start(h.n, h.blocksize) as usize;
    let left = put_fields(second, h, big, image, budget);
    let left = runs::put_list(second, field::RANKS_AT, &lists[..n], big, left);
    let left = runs::put_list(second, layout::sizes_at(n), &sizes[..n], big, left);
    let left = emit::last_fields(second, h.n, big, maxchunks, start, left);
    runs::put_zeros(second, from, end, left)
}

// The metadata blocks stored into an image: META1 at opening, its last two fields at closing, and META2, each within a budget of byte stores.
// Each function but `meta1` stores one run of bytes and answers what is left of the budget; every store goes through those of `stores`.
#![tactic(auto)]

ghost use Rattle.std.specs.Prelude.{◌≡◌, true, ◌++◌, ◌+◌, ◌-◌, ◌*◌, ◌≤◌, pos, length, drop};
ghost use Rattle.lists.specs.Splice.{splice};
ghost use Rattle.lists.specs.Stores.{found, Spends};
ghost use Rattle.format.specs.Limits.{blocksize_rule, max_tasks, max_blocks};
ghost use Rattle.format.specs.Layout.{meta1_end, data_start, meta2_length};
ghost use Rattle.format.specs.declared.head.Head.{Head};
ghost use Rattle.format.specs.Record.{entry, cell, rank_of, size_of};
ghost use Rattle.format.specs.Meta1.{prefix_length, fixed_length, last_at, padded, last_fields, opening_bytes, opening_stores};
ghost use Rattle.format.specs.Meta2.{meta2};
ghost use Rattle.emit.specs.Parts.{versions, shape, first_fields};

use format::head::{Head, LISTS};
use format::{field, head};
use stores::{memory, numbers};

// META2 from `at` on.
pub fn meta2(
    image: &mut [u8],
    at: usize,
    counts: &[u64],
    table: &[i64],
    n: u32,
    maxchunks: u32,
    big: bool,
    budget: u64,
) -> u64
    requires n_le_max_tasks { (n ≤ max_tasks) × (maxchunks ≤ max_blocks) × (n ≤ length counts.now) × (n * maxchunks ≤ length table.now) }
    requires maxchunks_in_bounds { at + meta2_length n maxchunks ≤ length image.old }
    ensures { Spends budget image.old at (meta2 big n maxchunks (entry counts.now) (cell table.now)) image.new result }
{
    let tasks = n as usize;
    let cells = tasks * maxchunks as usize;
    let left = runs::put_list(image, at, &counts[..tasks], big, budget);
    runs::put_list(image, at + 8 * tasks, &table[..cells], big, left)
}

// META1's last two fields, which closing fills: maxchunks, then start_of_varheader.
pub fn last_fields(
    image: &mut [u8],
    n: u32,
    big: bool,
    maxchunks: u32,
    start: u64,
    budget: u64,
) -> u64
    requires { (n ≤ max_tasks) × (meta1_end n ≤ length image.old) }
    ensures { Spends budget image.old (last_at n) (last_fields big maxchunks start) image.new result }
{
    let at = layout::last_at(n as usize);
    let mut fields = [0; 12];
    numbers::put(&mut fields, 0, big, maxchunks);
    numbers::put(&mut fields, 4, big, start);
    memory::copy_within(&mut image[at..], &fields, budget)
}

// The magic, the order and the versions, from 0 on.
fn put_versions(fields: &mut [u8], h: Head, big: bool)
    requires { 20 ≤ length fields.old }
    ensures { fields.new ≡ splice fields.old 0 (versions big h.version h.patch h.format) }
{
    memory::copy_in(fields, &field::MAGIC);
    numbers::put(fields, field::ORDER_AT, big, field::ORDER);
    numbers::put(fields, field::VERSION_AT, big, h.version);
    numbers::put(fields, field::PATCH_AT, big, h.patch);
    numbers::put(fields, field::FORMAT_AT, big, h.format);
}

// The blocksize, the tasks, nfiles, filenumber and two flags of zeros, from 20 on.
fn put_shape(fields: &mut [u8], h: Head, big: bool)
    requires { 52 ≤ length fields.old }
    ensures { fields.new ≡ splice fields.old 20 (shape big h.blocksize h.n h.files h.file) }
{
    numbers::put(fields, field::BLOCKSIZE_AT, big, h.blocksize);
    numbers::put(fields, field::TASKS_AT, big, h.n);
    numbers::put(fields, field::FILES_AT, big, h.files);
    numbers::put(fields, field::FILE_NUMBER_AT, big, h.file);
    memory::clear(&mut fields[field::FLAGS_AT..field::PREFIX_AT]);
}

// The fields before the prefix.
pub fn first_fields(h: Head, big: bool) -> [u8; 52]
    ensures { result ≡ first_fields big h }
{
    let mut fields = [0; field::PREFIX_AT];
    put_versions(&mut fields, h, big);
    put_shape(&mut fields, h, big);
    fields
}

// The prefix and the zeros after it, from 52 on.
fn put_prefix(image: &mut [u8], prefix: &[u8], budget: u64) -> u64
    requires { (length prefix.now ≤ prefix_length) × (52 + prefix_length ≤ length image.old) }
    ensures { Spends budget image.old 52 (padded prefix.now) image.new result }
{
    let left = memory::copy_within(&mut image[field::PREFIX_AT..], prefix, budget);
    runs::put_zeros(
        image,
        field::PREFIX_AT + prefix.len(),
        field::RANKS_AT,
        left,
    )
}

// All of META1 from 1 up to the ranks.
fn put_fixed(image: &mut [u8], h: Head, big: bool, prefix: &[u8], budget: u64) -> u64
    requires { (length prefix.now ≤ prefix_length) × (fixed_length ≤ length image.old) }
    ensures { Spends budget image.old 1 (drop 1 (first_fields big h) ++ padded prefix.now) image.new result }
{
    let fields = first_fields(h, big);
    let left = memory::copy_within(&mut image[1..], &fields[1..], budget);
    put_prefix(image, prefix, left)
}

// META1 but for its first byte, its last two fields 0, and zeros up to D.
fn put_rest(image: &mut [u8], h: Head, lists: &[u64; LISTS], prefix: &[u8], budget: u64) -> u64
    requires blocksize_value { (blocksize_rule (pos h.blocksize) ≡ true) × (h.n ≤ max_tasks) }
    requires prefix_len_bound { length prefix.now ≤ prefix_length }
    requires n_in_bounds { data_start h.blocksize h.n ≤ length image.old }
    ensures { Spends budget image.old 1 (drop 1 (opening_bytes h (rank_of lists.now) (size_of lists.now) prefix.now)) image.new result }
{
    let big = h.order == 1;
    let n = h.n as usize;
    let last = layout::last_at(n);
    let end = layout::data_start(h.n, h.blocksize) as usize;
    let left = put_fixed(image, h, big, prefix, budget);
    let ranks = &lists[..head::SIZES];
    let sizes = &lists[head::SIZES..head::COUNTS];
    let left = runs::put_list(image, field::RANKS_AT, &ranks[..n], big, left);
    let left = runs::put_list(image, layout::sizes_at(n), &sizes[..n], big, left);
    runs::put_zeros(image, last, end, left)
}

// What opening stores: 0 into the magic's first byte, then all up to D, and the first byte itself last.
pub fn meta1(image: &mut [u8], h: Head, lists: &[u64; LISTS], prefix: &[u8], budget: u64)
    requires blocksize_value { (blocksize_rule (pos h.blocksize) ≡ true) × (h.n ≤ max_tasks) }
    requires prefix_len_bound { length prefix.now ≤ prefix_length }
    requires n_in_bounds { data_start h.blocksize h.n ≤ length image.old }
    ensures { image.new ≡ found budget image.old (opening_stores h (rank_of lists.now) (size_of lists.now) prefix.now) }
{
    let magic = field::MAGIC;
    let left = runs::put_zeros(image, 0, 1, budget);
    let left = put_rest(image, h, lists, prefix, left);
    memory::copy_within(image, &magic[..1], left);
}

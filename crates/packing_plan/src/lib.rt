// What a packed container's META1 and META2 say (W-210), and its length, from a loaded record: the totals of its tasks, and from them the sizes, the
// counts and the cells.
#![tactic(auto)]

ghost use Rattle.std.specs.Prelude.{◌≡◌, true, cond, not, ◌≤◌, max, ltb, eqb, pos, length, get_or, OnOk};
ghost use Rattle.lists.specs.Below.{all_below, greatest_below, list_below};
ghost use Rattle.lists.specs.Splice.{splice};
ghost use Rattle.format.specs.Limits.{blocksize_rule, max_tasks, max_size};
ghost use Rattle.format.specs.Layout.{meta2_end};
ghost use Rattle.format.specs.Meta2.{unused, least_count};
ghost use Rattle.format.specs.declared.head.File.TheVariants.{Single};
ghost use Rattle.format.specs.declared.head.Head.{Head};
ghost use Rattle.format.specs.declared.loaded.Loaded.{Loaded};
ghost use Rattle.format.specs.Refusals.{first_failing, answered};
ghost use Rattle.format.specs.Reads.{container_of};
ghost use Rattle.format.specs.Passed.{Passed};
ghost use Rattle.format.specs.Answers.{byte_count};
ghost use Rattle.packs.specs.Pack.{total, pack_tests, pack_needs};

use format::head::{File, Head, LISTS};
use format::limit;
use format::loaded::Loaded;
use format::refusal::Refusal;
use layout::Layout;
use rules::limits;

// The total of each task of a record that passed the tests, from the list's start on.
pub fn put_totals(totals: &mut [u64], l: Loaded, lists: &[u64; LISTS], image: &[u8], table: &[i64])
    requires passed { Passed l.head lists.now l.maxchunks image.now table.now }
    requires n_in_bounds { l.head.n ≤ length totals.old }
    ensures { totals.new ≡ splice totals.old 0 (list_below l.head.n (total (container_of Single l lists.now image.now table.now))) }
{
    let n = l.head.n as usize;
    for (i, total) in totals[..n].iter_mut().enumerate() {
        *total = reads::total_of(l, lists, image, table, i as u64 + 1);
    }
}

// Whether none of n totals is over the greatest size of a task.
pub fn totals_ok(totals: &[u64], n: usize) -> bool
    requires { n ≤ length totals.now }
    ensures { result ≡ all_below n (λ i. not (ltb max_size (get_or totals.now i 0))) }
{
    tables::greatest(&totals[..n]) <= limit::MAX_SIZE
}

// The size of each of n tasks: its total, at least 1.
pub fn put_sizes(sizes: &mut [u64], totals: &[u64], n: usize)
    requires { (n ≤ length sizes.old) × (n ≤ length totals.now) }
    ensures { sizes.new ≡ splice sizes.old 0 (list_below n (λ i. max 1 (get_or totals.now i 0))) }
{
    for (i, size) in sizes[..n].iter_mut().enumerate() {
        *size = totals[i].max(1);
    }
}

// How many chunks a task with this total uses, where a task without a byte has the least count.
fn count_of(total: u64, least: u64) -> u64
    ensures { result ≡ cond (eqb total 0) least 1 }
{
    if total == 0 { least } else { 1 }
}

// The count of each of n tasks.
pub fn put_counts(counts: &mut [u64], totals: &[u64], n: usize, format: u32)
    requires { (n ≤ length counts.old) × (n ≤ length totals.now) }
    ensures { counts.new ≡ splice counts.old 0 (list_below n (λ i. cond (eqb (get_or totals.now i 0) 0) (least_count format) 1)) }
{
    let least = limits::least_count(format);
    for (i, count) in counts[..n].iter_mut().enumerate() {
        *count = count_of(totals[i], least);
    }
}

// What META2 says of chunk 1 of a task with this total: its bytes, and -1 where it is not in use.
fn first_cell(total: u64, count: u64) -> i64
    requires { total ≤ max_size }
    ensures { result ≡ cond (eqb count 0) unused (pos total) }
{
    if count == 0 {
        return -1;
    }
    tables::cell_of(total)
}

// The cell of each of n tasks.
pub fn put_cells(cells: &mut [i64], totals: &[u64], counts: &[u64], n: usize)
    requires n_in_bounds { (n ≤ length cells.old) × (n ≤ length totals.now) × (n ≤ length counts.now) }
    requires i_value { all_below n (λ i. not (ltb max_size (get_or totals.now i 0))) ≡ true }
    ensures { cells.new ≡ splice cells.old 0 (list_below n (λ i. cond (eqb (get_or counts.now i 0) 0) unused (pos (get_or totals.now i 0)))) }
{
    for (i, cell) in cells[..n].iter_mut().enumerate() {
        *cell = first_cell(totals[i], counts[i]);
    }
}

// Where META2 of the packed container ends, by the totals of its tasks.
pub fn packed_end(h: Head, totals: &[u64]) -> u64
    requires blocksize_value { (blocksize_rule (pos h.blocksize) ≡ true) × (h.n ≤ max_tasks) × (h.n ≤ length totals.now) }
    requires i_value { all_below h.n (λ i. not (ltb max_size (get_or totals.now i 0))) ≡ true }
    ensures { result ≡ meta2_end h.blocksize h.n (λ i. max 1 (get_or totals.now i 0)) (greatest_below h.n (λ i. cond (eqb (get_or totals.now i 0) 0) (least_count h.format) 1)) }
{
    let n = h.n as usize;
    let mut sizes = [0; limit::MAX_TASKS];
    put_sizes(&mut sizes, totals, n);
    let mut counts = [0; limit::MAX_TASKS];
    put_counts(&mut counts, totals, n, h.format);
    let most = tables::greatest(&counts[..n]) as u32;
    let layout = Layout {
        n: h.n,
        blocksize: h.blocksize,
        sizes: &sizes,
    };
    layout.meta2_end(most)
}

// Tests 17, 18 and 19, and then 9; where they pass, the totals stand at the start of the list.
pub fn plan(
    totals: &mut [u64],
    l: Loaded,
    lists: &[u64; LISTS],
    image: &[u8],
    table: &[i64],
) -> Result<(), Refusal>
    requires { max_tasks ≤ length totals.old }
    ensures value { answered result ≡ first_failing (pack_tests (container_of Single l lists.now image.now table.now)) }
    ensures totals_after { OnOk result (totals.new ≡ splice totals.old 0 (list_below l.head.n (total (container_of Single l lists.now image.now table.now)))) }
{
    records::test_loaded(File::Single, l, lists, image, table)?;
    put_totals(totals, l, lists, image, table);
    if !totals_ok(totals, l.head.n as usize) {
        return Err(Refusal::BadSize);
    }
    Ok(())
}

// The length of the packed container, beforehand.
pub fn packed_length(
    l: Loaded,
    lists: &[u64; LISTS],
    image: &[u8],
    table: &[i64],
) -> Result<u64, Refusal>
    ensures { byte_count result ≡ pack_needs (container_of Single l lists.now image.now table.now) }
{
    let mut totals = [0; limit::MAX_TASKS];
    plan(&mut totals, l, lists, image, table)?;
    Ok(packed_end(l.head, &totals))
}

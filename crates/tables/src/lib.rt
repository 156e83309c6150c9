// META2's rule: counts judged by it, and the cells of a table, many at a time and without a branch; the bytes that a cell says were written, and back.
#![tactic(auto)]

ghost use Rattle.std.specs.Prelude.{◌≡◌, ◌+◌, ◌*◌, ◌^◌, ◌<◌, ◌≤◌, ◌&&◌, ltb, length, get_or, pos, if◌then◌else◌, nat_le, nat_lt, slice_index, slice_index_or};
ghost use Rattle.lists.specs.Below.{all_below, greatest_below};
ghost use Rattle.endian.specs.Signed.{natural};
ghost use Rattle.format.specs.Limits.{max_blocks, max_size};
ghost use Rattle.format.specs.Layout.{capacity};
ghost use Rattle.format.specs.Meta2.{counts_rule, value_rule, values_rule};
ghost use Rattle.format.specs.Record.{cell};
ghost use Rattle.tables.specs.Spans.{rule_at, HoldsListed};

use format::limit;
use layout::Layout;
use rules::limits;

// The top bit alone.
const TOP: u64 = 0x8000_0000_0000_0000;

// Up to so many tasks a list of this length is enough for what chunks hold. The list is cleared in every call, so a call on few tasks takes the
// short one.
pub const FEW: usize = 16;

// The greatest number, 0 where there is none.
pub fn greatest(values: &[u64]) -> u64
    ensures { result ≡ greatest_below (length values.now) (λ i. slice_index values.now i) }
{
    values.iter().fold(0, |most, value| most.max(*value))
}

// Whether each count is from the format's least one to maxchunks, and the greatest is maxchunks.
pub fn counts_ok(counts: &[u64], format: u32, maxchunks: u32) -> bool
    ensures { result ≡ counts_rule format (length counts.now) maxchunks (λ i. pos (slice_index counts.now i)) }
{
    let least = limits::least_count(format);
    let most = maxchunks as u64;
    limits::first_outside(counts, least, most).is_none() && greatest(counts) == most
}

// `bad`, with its top bit set if bits is over holds: bits, or the difference, then has that bit.
fn over(bad: u64, holds: u64, bits: u64) -> u64
    requires { holds < 2 ^ 63 }
    ensures { nat_lt result (2 ^ 63) ≡ (nat_lt bad (2 ^ 63) && nat_le bits holds) }
{
    bad | bits | holds.wrapping_sub(bits)
}

// 0 where a task of so many chunks uses chunk k + 1, else all ones.
fn unused_mask(count: u64, k: u64) -> u64
    requires { k < 2 ^ 63 }
    ensures { result ≡ (if ltb k count then 0 else 18446744073709551615) }
{
    let under = count.wrapping_sub(k + 1);
    let bit = (under & !count) >> 63;
    0u64.wrapping_sub(bit)
}

// `bad`, with its top bit set if the value breaks its rule: at most what the chunk holds, and -1 where it is not used. There is no branch, so
// that the machine can judge several values at a time.
fn value_bad(bad: u64, count: u64, k: u64, holds: u64, value: i64) -> u64
    requires { (k < 2 ^ 63) × (holds < 2 ^ 63) }
    ensures { nat_lt result (2 ^ 63) ≡ (nat_lt bad (2 ^ 63) && value_rule (nat_lt k count) holds value) }
{
    let unused = unused_mask(count, k);
    let most = holds & !unused;
    over(bad, most, value.cast_unsigned() ^ unused)
}

// Whether the value of chunk k + 1 keeps its rule.
pub fn value_ok(count: u64, k: u64, holds: u64, value: i64) -> bool
    requires { (k < 2 ^ 63) × (holds < 2 ^ 63) }
    ensures { result ≡ value_rule (nat_lt k count) holds value }
{
    value_bad(0, count, k, holds, value) < TOP
}

// The cells of chunk k + 1, one for each of some tasks. What a chunk of each of these tasks holds is listed from the list's start on, and so are
// their counts.
fn row_ok(cells: &[i64], k: u64, holds: &[u64], counts: &[u64]) -> bool
    requires holds_listed { HoldsListed (length cells.now) holds.now × (k < 2 ^ 63) }
    requires counts_listed { length cells.now ≤ length counts.now }
    ensures { result ≡ all_below (length cells.now) (λ i. value_rule (nat_lt k (slice_index counts.now i)) (slice_index holds.now i) (slice_index_or cells.now i (pos 0))) }
{
    let mut bad = 0;
    for (i, cell) in cells.iter().enumerate() {
        bad = value_bad(bad, counts[i], k, holds[i], *cell);
    }
    bad < TOP
}

// Cells which stand one after the other: those of chunk k + 1 from task `first` + 1 on, and then those of the chunks that follow. What a chunk
// of each task holds is listed, and so are the counts.
pub fn span_ok(cells: &[i64], k: u64, first: usize, holds: &[u64], counts: &[u64]) -> bool
    requires holds_listed { HoldsListed (length holds.now) holds.now × (length holds.now ≤ length counts.now) }
    requires cells_in_bounds { (k + length cells.now < 2 ^ 63) × (0 < length cells.now → first < length holds.now) }
    ensures { result ≡ all_below (length cells.now) (λ t. rule_at (length holds.now) holds.now counts.now (k * length holds.now + first + t) (slice_index_or cells.now t (pos 0))) }
{
    // no `for`: the first row may begin at any task, so cells and tasks are gone through at two paces
    let mut rest = cells;
    let mut row = k;
    let mut i = first;
    while !rest.is_empty() {
        let w = rest.len().min(holds.len() - i);
        let (front, later) = rest.split_at(w);
        if !row_ok(front, row, &holds[i..], &counts[i..]) {
            return false;
        }
        rest = later;
        row += 1;
        i = 0;
    }
    true
}

// The cells of all m chunks of a record, by META2's rule, with a list for what the chunks of its tasks hold.
fn cells_held(holds: &mut [u64], table: &[i64], layout: &Layout<'_>, counts: &[u64], m: u32) -> bool
    requires m_in_bounds { (m ≤ max_blocks) × (layout.now.n ≤ length holds.old) }
    requires n_in_bounds { (layout.now.n ≤ length counts.now) × (layout.now.n * m ≤ length table.now) }
    ensures { result ≡ values_rule layout.now.n m (λ i. capacity layout.now.blocksize (slice_index layout.now.sizes.now i)) (λ i. slice_index counts.now i) (λ j. get_or table.now j (pos 0)) }
{
    layout.chunks_hold(holds);
    let n = layout.n as usize;
    span_ok(&table[..n * m as usize], 0, 0, &holds[..n], counts)
}

// The cells of all m chunks of a record, by META2's rule.
pub fn cells_ok(table: &[i64], layout: &Layout<'_>, counts: &[u64], m: u32) -> bool
    requires m_in_bounds { m ≤ max_blocks }
    requires n_in_bounds { (layout.now.n ≤ length counts.now) × (layout.now.n * m ≤ length table.now) }
    ensures { result ≡ values_rule layout.now.n m (λ i. capacity layout.now.blocksize (slice_index layout.now.sizes.now i)) (λ i. slice_index counts.now i) (λ j. get_or table.now j (pos 0)) }
{
    if layout.n as usize <= FEW {
        let mut few = [0u64; FEW];
        return cells_held(&mut few, table, layout, counts, m);
    }
    let mut all = [0u64; limit::MAX_TASKS];
    cells_held(&mut all, table, layout, counts, m)
}

// The bytes that a used cell says were written.
pub fn written(table: &[i64], at: usize) -> u64
    requires { at < length table.now }
    ensures { result ≡ natural (cell table.now at) }
{
    table[at].max(0) as u64
}

// The cell that says so many bytes were written.
pub fn cell_of(bytes: u64) -> i64
    requires { bytes ≤ max_size }
    ensures { result ≡ pos bytes }
{
    bytes as i64
}

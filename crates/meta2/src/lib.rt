// META2, the second metadata block: its counts and values judged from its own part of the image.
#![tactic(auto)]

ghost use Rattle.std.specs.Prelude.{◌≡◌, suc, ◌+◌, ◌*◌, ◌<◌, ◌≤◌, ◌^◌, pos, length, get_or};
ghost use Rattle.lists.specs.Below.{list_below};
ghost use Rattle.endian.specs.Number.{number_at};
ghost use Rattle.format.specs.Limits.{max_blocks, max_tasks};
ghost use Rattle.format.specs.Layout.{capacity, meta2_length};
ghost use Rattle.format.specs.declared.fault.Broken.{Broken};
ghost use Rattle.format.specs.declared.refusal.Refusal.TheVariants.{BadMeta2};
ghost use Rattle.format.specs.Kinds;
ghost use Rattle.format.specs.Refusals.{fault_of, verdict, judged};
ghost use Rattle.format.specs.Meta2.{values_rule, count_field, value_field};
ghost use Rattle.format.specs.Record.{size_of, is_big, with_counts};
ghost use Rattle.meta2.specs.Judging.{Meta2There, CountsRead, CountsPassed};
ghost use Rattle.format.specs.Judge.{value_test, value_tests, counts_tests, meta2_tests};

use endian::read;
use format::fault::{Broken, Field};
use format::head::{Head, LISTS};
use format::refusal::Refusal;
use format::{head, limit};
use layout::Layout;
use rules::limits;

// So many values are decoded at a time to be judged.
const TILE: usize = 128;

// The values of META2, by the rule for cells, a tile of them at a time; with a list for what the chunks hold.
fn values_held(
    holds: &mut [u64],
    part: &[u8],
    big: bool,
    layout: &Layout<'_>,
    counts: &[u64],
    m: u32,
) -> bool
    requires m_in_bounds { (m ≤ max_blocks) × (layout.now.n ≤ length holds.old) }
    requires n_in_bounds { (layout.now.n ≤ length counts.now) × (meta2_length layout.now.n m ≤ length part.now) }
    ensures { result ≡ values_rule layout.now.n m (λ i. capacity layout.now.blocksize (get_or layout.now.sizes.now i 0)) (λ i. get_or counts.now i 0) (value_field big part.now layout.now.n) }
{
    layout.chunks_hold(holds);
    let n = layout.n as usize;
    let holds = &holds[..n];
    let cells = n * m as usize;
    let mut tile = [0i64; TILE];
    for j in (0..cells).step_by(TILE) {
        let w = TILE.min(cells - j);
        let values = &mut tile[..w];
        read::fill(values, part, 8 * n + 8 * j, big);
        if !tables::span_ok(values, (j / n) as u64, j % n, holds, counts) {
            return false;
        }
    }
    true
}

// The values of META2, by the rule for cells.
fn values_ok(part: &[u8], big: bool, layout: &Layout<'_>, counts: &[u64], m: u32) -> bool
    requires m_in_bounds { m ≤ max_blocks }
    requires n_in_bounds { (layout.now.n ≤ length counts.now) × (meta2_length layout.now.n m ≤ length part.now) }
    ensures { result ≡ values_rule layout.now.n m (λ i. capacity layout.now.blocksize (get_or layout.now.sizes.now i 0)) (λ i. get_or counts.now i 0) (value_field big part.now layout.now.n) }
{
    if layout.n as usize <= tables::FEW {
        let mut few = [0u64; tables::FEW];
        return values_held(&mut few, part, big, layout, counts, m);
    }
    let mut all = [0u64; limit::MAX_TASKS];
    values_held(&mut all, part, big, layout, counts, m)
}

// Test 13 of the values of chunk k + 1, one by one, where the counts passed. The part starts at `at` of the image.
fn judge_row(
    part: &[u8],
    at: u64,
    h: Head,
    maxchunks: u32,
    lists: &[u64; LISTS],
    k: u32,
) -> Result<(), Broken>
    requires { CountsPassed part.now at h maxchunks lists.now × (k < maxchunks) }
    ensures { judged result ≡ verdict (list_below h.n (value_test h (size_of lists.now) maxchunks at part.now k)) }
{
    let big = h.order == 1;
    let n = h.n as usize;
    let layout = Layout::of(h, lists);
    let row = 8 * n + 8 * (k as usize * n);
    for i in 0..n {
        let count = lists[head::COUNTS + i];
        let holds = layout.chunk_holds(i);
        let value = read::get::<i64>(part, row + 8 * i, big);
        if !tables::value_ok(count, k as u64, holds, value.value) {
            let place = at + value.at as u64;
            return Err(faults::value(
                i as u32 + 1,
                k + 1,
                place,
                value.value,
                (k as u64) < count,
                holds,
            ));
        }
    }
    Ok(())
}

// Test 13 of all values, one by one, chunk by chunk.
fn judge_values(
    part: &[u8],
    at: u64,
    h: Head,
    maxchunks: u32,
    lists: &[u64; LISTS],
) -> Result<(), Broken>
    requires { CountsPassed part.now at h maxchunks lists.now }
    ensures { judged result ≡ verdict (value_tests h (size_of lists.now) maxchunks at part.now) }
{
    for k in 0..maxchunks {
        judge_row(part, at, h, maxchunks, lists, k)?;
    }
    Ok(())
}

// The count of task i + 1 breaks its rule.
fn bad_count(part: &[u8], at: u64, big: bool, i: usize, least: u64, maxchunks: u32) -> Broken
    requires { (8 * i + 8 ≤ length part.now) × (i < max_tasks) × (least < 2 ^ 63) × (at + length part.now < 2 ^ 64) }
    ensures { result ≡ record { refusal = BadMeta2; fault = fault_of Kinds.count (suc i) 0 (at + 8 * i) (count_field big part.now i) (pos least) (pos maxchunks) } }
{
    let count = read::get::<u64>(part, 8 * i, big);
    faults::number8(
        Refusal::BadMeta2,
        Field::Count,
        i as u32 + 1,
        at + count.at as u64,
        count.value,
        least,
        maxchunks as u64,
    )
}

// Test 13 of counts that were read, one by one, and of the greatest of them.
fn judge_counts(
    part: &[u8],
    at: u64,
    h: Head,
    maxchunks: u32,
    lists: &[u64; LISTS],
) -> Result<(), Broken>
    requires { CountsRead part.now at h maxchunks lists.now }
    ensures { judged result ≡ verdict (counts_tests h (size_of lists.now) maxchunks at part.now) }
{
    let big = h.order == 1;
    let n = h.n as usize;
    let counts = &lists[head::COUNTS..][..n];
    let least = limits::least_count(h.format);
    if let Some(i) = limits::first_outside(counts, least, maxchunks as u64) {
        return Err(bad_count(part, at, big, i, least, maxchunks));
    }
    let most = tables::greatest(counts);
    if most != maxchunks as u64 {
        let place = layout::last_at(n) as u64;
        return Err(faults::not_as_needed(
            Refusal::BadMeta2,
            Field::Maxchunks,
            place,
            maxchunks as u64,
            most,
        ));
    }
    Ok(())
}

// Test 13, of counts that were read. Counts and values are judged one by one only where one of them breaks its rule, to find the first.
fn judge_read(
    part: &[u8],
    at: u64,
    h: Head,
    maxchunks: u32,
    lists: &[u64; LISTS],
) -> Result<(), Broken>
    requires { CountsRead part.now at h maxchunks lists.now }
    ensures { judged result ≡ verdict (meta2_tests h (size_of lists.now) maxchunks at part.now) }
{
    let big = h.order == 1;
    let n = h.n as usize;
    let counts = &lists[head::COUNTS..][..n];
    if !tables::counts_ok(counts, h.format, maxchunks) {
        return judge_counts(part, at, h, maxchunks, lists);
    }
    let layout = Layout::of(h, lists);
    if !values_ok(part, big, &layout, counts, maxchunks) {
        return judge_values(part, at, h, maxchunks, lists);
    }
    Ok(())
}

// Test 13, where META1 passed and gave this head, maxchunks, and lists of ranks and sizes: the counts are put beside them. The part starts at `at`
// of the image.
pub fn judge(
    part: &[u8],
    at: u64,
    h: Head,
    maxchunks: u32,
    lists: &mut [u64; LISTS],
) -> Result<(), Broken>
    requires { Meta2There part.now at h maxchunks lists.old }
    ensures value { judged result ≡ verdict (meta2_tests h (size_of lists.old) maxchunks at part.now) }
    ensures lists_after { lists.new ≡ with_counts lists.old h.n (λ i. number_at (is_big h) 8 part.now (8 * i)) }
{
    let big = h.order == 1;
    let n = h.n as usize;
    read::fill(&mut lists[head::COUNTS..head::COUNTS + n], part, 0, big);
    judge_read(part, at, h, maxchunks, lists)
}

// META1, the first metadata block, judged where the fields that every container has at the same place passed: its lists and its last two fields.
#![tactic(auto)]

ghost use Rattle.std.specs.Prelude.{◌≡◌, suc, ◌+◌, ◌*◌, ◌<◌, ◌^◌, pos, length, IfOk};
ghost use Rattle.endian.specs.Signed.{signed};
ghost use Rattle.format.specs.Kinds;
ghost use Rattle.format.specs.Limits.{max_tasks};
ghost use Rattle.format.specs.Refusals.{fault_of, kind_of, judged, verdict};
ghost use Rattle.format.specs.Judge.{number_fault, last_tests, rest_tests};
ghost use Rattle.format.specs.Record.{entry, sizes_of, no_lists};
ghost use Rattle.front.specs.Judging.{HeadRead};
ghost use Rattle.meta1.specs.Judging.{ListsPassed, lists_read, last_in};

use endian::read;
use endian::read::Read;
use format::fault::{Broken, Field};
use format::head::{Head, LISTS};
use format::refusal::Refusal;
use format::{field, head, limit};
use layout::Layout;
use rules::limits;

// The greatest number that start_of_varheader can be.
const MAX_START: u64 = 0x7fff_ffff_ffff_ffff;

// META2's place, as the last two fields say it: for so many chunks of each task, and where it starts.
#[derive(Clone, Copy)]
pub struct Last {
    pub maxchunks: u32,
    pub start: u64,
}

// start_of_varheader breaks its rule, which bounds it by `least` and `most`.
fn bad_start(refusal: Refusal, start: Read<u64>, least: u64, most: u64) -> Broken
    requires { (least < 2 ^ 63) × (most < 2 ^ 63) }
    ensures { result ≡ record { refusal = refusal; fault = number_fault Kinds.start start.at (signed 63 start.value) least most } }
{
    let place = start.at as u64;
    faults::number8(refusal, Field::Start, 0, place, start.value, least, most)
}

// Tests 10, 11 and 12: the last two fields, where 8 and 9 passed.
fn judge_last(xs: &[u8], len: u64, h: Head, lists: &[u64; LISTS]) -> Result<Last, Broken>
    requires { ListsPassed xs.now len h (sizes_of lists.now) }
    ensures verdict { judged result ≡ verdict (last_tests xs.now len) }
    ensures last { IfOk result (λ last. last ≡ last_in xs.now) }
{
    let big = h.order == 1;
    let at = layout::last_at(h.n as usize);
    let start = read::get::<u64>(xs, at + 4, big);
    if start.value == 0 {
        return Err(bad_start(Refusal::NotClosed, start, 1, MAX_START));
    }
    let chunks = read::get::<u32>(xs, at, big);
    let maxchunks = chunks.value;
    if !limits::maxchunks_ok(maxchunks) {
        let most = limit::MAX_BLOCKS as u64;
        return Err(faults::number4(Refusal::BadMaxchunks, Field::Maxchunks, chunks, 0, most));
    }
    let place = Layout::of(h, lists).meta2_start(maxchunks);
    if start.value != place {
        return Err(bad_start(Refusal::BadMeta2Place, start, place, place));
    }
    let end = place + layout::meta2_length(h.n, maxchunks);
    if len < end {
        return Err(faults::not_as_needed(Refusal::BadMeta2Place, Field::Image, len, len, end));
    }
    Ok(Last {
        maxchunks,
        start: place,
    })
}

// Number i of a stripe, which stands from `from` on, breaks its rule, which bounds it by `least` and `most`; it is of task i + 1.
fn bad_entry(
    refusal: Refusal,
    field: Field,
    stripe: &[u64],
    from: usize,
    i: usize,
    least: u64,
    most: u64,
) -> Broken
    requires place { (i < length stripe.now) × (i < max_tasks) × (from < 2 ^ 32) }
    requires bounds { (least < 2 ^ 63) × (most < 2 ^ 63) }
    ensures { result ≡ record {
      refusal = refusal;
      fault = fault_of (kind_of field) (suc i) 0 (from + 8 * i) (signed 63 (entry stripe.now i)) (pos least) (pos most);
    } }
{
    let place = (from + 8 * i) as u64;
    faults::number8(refusal, field, i as u32 + 1, place, stripe[i], least, most)
}

// Tests 8 to 12, of ranks and sizes that were read.
fn judge_read(xs: &[u8], len: u64, h: Head, lists: &[u64; LISTS]) -> Result<Last, Broken>
    requires { HeadRead xs.now len h × (lists.now ≡ lists_read xs.now h) }
    ensures verdict { judged result ≡ verdict (rest_tests xs.now len) }
    ensures last { IfOk result (λ last. last ≡ last_in xs.now) }
{
    let n = h.n as usize;
    let ranks = &lists[..n];
    if let Some(i) = limits::first_bad_rank(ranks) {
        let (from, most) = (field::RANKS_AT, limit::MAX_RANK);
        return Err(bad_entry(Refusal::BadRank, Field::Rank, ranks, from, i, 0, most));
    }
    let sizes = &lists[head::SIZES..head::SIZES + n];
    if let Some(i) = limits::first_bad_size(sizes) {
        let (from, most) = (layout::sizes_at(n), limit::MAX_SIZE);
        return Err(bad_entry(Refusal::BadSize, Field::Size, sizes, from, i, 1, most));
    }
    judge_last(xs, len, h, lists)
}

// Tests 8 to 12, where the fixed fields passed and gave this head: ranks and sizes are put into lists of zeros.
pub fn judge_lists(xs: &[u8], len: u64, h: Head, lists: &mut [u64; LISTS]) -> Result<Last, Broken>
    requires { HeadRead xs.now len h × (lists.old ≡ no_lists) }
    ensures verdict { judged result ≡ verdict (rest_tests xs.now len) }
    ensures last { IfOk result (λ last. last ≡ last_in xs.now) }
    ensures lists_after { lists.new ≡ lists_read xs.now h }
{
    let big = h.order == 1;
    let n = h.n as usize;
    read::fill(&mut lists[..n], xs, field::RANKS_AT, big);
    let sizes = &mut lists[head::SIZES..head::SIZES + n];
    read::fill(sizes, xs, layout::sizes_at(n), big);
    judge_read(xs, len, h, lists)
}

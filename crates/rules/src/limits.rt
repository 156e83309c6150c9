// The rule for each number of document 01, "Numbers that bound the work", and for fileformat_version; a list is judged over all that it holds.
ghost use Rattle.std.specs.Prelude.{◌≡◌, not, ◌&&◌, pos, length, get_or};
ghost use Rattle.lists.specs.Below.{all_below};
ghost use Rattle.endian.specs.Signed.{within, same_z};
ghost use Rattle.format.specs.Limits.{max_size, format_rule, tasks_rule, blocksize_rule, planned_rule, maxchunks_rule, is_new, ranks_rule, rank_rule, sizes_rule};
ghost use Rattle.format.specs.Meta2.{least_count};
ghost use Rattle.rules.specs.First.{first_bad};

use format::limit;

pub fn format_ok(format: u32) -> bool
    ensures { result ≡ format_rule (pos format) }
{
    limit::PLAIN_FORMAT <= format && format <= limit::IDLE_FORMAT
}

// The least count of a task in this format: in 4 a task that wrote nothing has a chunk in use.
pub fn least_count(format: u32) -> u64
    ensures { result ≡ least_count format }
{
    if format == limit::IDLE_FORMAT { 1 } else { 0 }
}

pub fn blocksize_ok(blocksize: u32) -> bool
    ensures { result ≡ blocksize_rule (pos blocksize) }
{
    limit::MIN_BLOCKSIZE <= blocksize
        && blocksize <= limit::MAX_BLOCKSIZE
        && u32::count_ones(blocksize) == 1
}

pub fn tasks_ok(n: u32) -> bool
    ensures { result ≡ tasks_rule (pos n) }
{
    1 <= n && n as usize <= limit::MAX_TASKS
}

pub fn planned_ok(planned: u32) -> bool
    ensures { result ≡ planned_rule (pos planned) }
{
    1 <= planned && planned <= limit::MAX_BLOCKS
}

pub fn maxchunks_ok(maxchunks: u32) -> bool
    ensures { result ≡ maxchunks_rule (pos maxchunks) }
{
    maxchunks <= limit::MAX_BLOCKS
}

fn within(value: u64, lo: u64, hi: u64) -> bool
    ensures { result ≡ within lo hi (pos value) }
{
    lo <= value && value <= hi
}

// The first number that is not from lo to hi.
pub fn first_outside(values: &[u64], lo: u64, hi: u64) -> Option<usize>
    ensures { result ≡ first_bad (length values.now) (λ i. within lo hi (pos (get_or values.now i 0))) }
{
    values.iter().position(|value| !within(*value, lo, hi))
}

// Whether a number differs from each of those before it. It looks at all of them, which a machine does faster than to stop at the first.
fn is_new(before: &[u64], value: u64) -> bool
    ensures { result ≡ all_below (length before.now) (λ j. not (same_z (pos (get_or before.now j 0)) (pos value))) }
{
    before.iter().fold(true, |new, x| new & (*x != value))
}

// The first number that is one of those before it.
fn first_repeat(values: &[u64]) -> Option<usize>
    ensures { result ≡ first_bad (length values.now) (is_new (λ i. pos (get_or values.now i 0))) }
{
    for (i, value) in values.iter().enumerate() {
        if !is_new(&values[..i], *value) {
            return Some(i);
        }
    }
    None
}

// The first rank that breaks its rule.
pub fn first_bad_rank(ranks: &[u64]) -> Option<usize>
    ensures { result ≡ first_bad (length ranks.now) (rank_rule (λ i. pos (get_or ranks.now i 0))) }
{
    let outside = first_outside(ranks, 0, limit::MAX_RANK);
    let inside = outside.unwrap_or(ranks.len());
    first_repeat(&ranks[..inside]).or(outside)
}

pub fn ranks_ok(ranks: &[u64]) -> bool
    ensures { result ≡ ranks_rule (length ranks.now) (λ i. pos (get_or ranks.now i 0)) }
{
    first_bad_rank(ranks).is_none()
}

// The first size that breaks its rule.
pub fn first_bad_size(sizes: &[u64]) -> Option<usize>
    ensures { result ≡ first_bad (length sizes.now) (λ i. within 1 max_size (pos (get_or sizes.now i 0))) }
{
    first_outside(sizes, 1, limit::MAX_SIZE)
}

pub fn sizes_ok(sizes: &[u64]) -> bool
    ensures { result ≡ sizes_rule (length sizes.now) (λ i. pos (get_or sizes.now i 0)) }
{
    first_bad_size(sizes).is_none()
}

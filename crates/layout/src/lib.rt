// Where the parts of a container lie, and what its chunks hold: the rounding by blocksize, and the offsets of META1's end, each chunk and META2.
// Every function asks for numbers within document 01's limits, under which no sum here can overflow.
#![tactic(auto)]

ghost use Rattle.std.specs.Prelude.{◌≡◌, true, ◌+◌, ◌*◌, ◌<◌, ◌≤◌, pos, length, get_or};
ghost use Rattle.lists.specs.Below.{list_below};
ghost use Rattle.lists.specs.Splice.{splice};
ghost use Rattle.format.specs.Limits.{blocksize_rule, max_tasks, max_size, max_blocks, Sound};
ghost use Rattle.format.specs.Layout.{meta1_end, round_up, data_start, extended, capacity, extended_before, globalskip, chunk_start, meta2_start, meta2_length, meta2_end};
ghost use Rattle.format.specs.Meta1.{fixed_length, last_at};
ghost use Rattle.format.specs.Record.{sizes_of};

use format::head::Head;
use format::{field, head};

// The least multiple of blocksize that is at least x.
pub fn round_up(x: u64, blocksize: u32) -> u64
    requires { (blocksize_rule (pos blocksize) ≡ true) × (x ≤ max_size) }
    ensures { result ≡ round_up blocksize x }
{
    let step = u32::trailing_zeros(blocksize);
    let last = blocksize as u64 - 1;
    ((x + last) >> step) << step
}

pub fn meta1_end(n: u32) -> u64
    requires { n ≤ max_tasks }
    ensures { result ≡ meta1_end n }
{
    1088 + 16 * n as u64
}

// D, where the first chunk starts.
pub fn data_start(n: u32, blocksize: u32) -> u64
    requires { (blocksize_rule (pos blocksize) ≡ true) × (n ≤ max_tasks) }
    ensures { result ≡ data_start blocksize n }
{
    round_up(meta1_end(n), blocksize)
}

// What a chunk of a task with this requested size holds: its extended size.
pub fn chunk_holds(size: u64, blocksize: u32) -> u64
    requires { (blocksize_rule (pos blocksize) ≡ true) × (size ≤ max_size) }
    ensures extended { result ≡ extended blocksize size }
    ensures holds { result ≡ capacity blocksize size }
{
    round_up(size, blocksize)
}

pub fn meta2_length(n: u32, maxchunks: u32) -> u64
    requires { (n ≤ max_tasks) × (maxchunks ≤ max_blocks) }
    ensures { result ≡ meta2_length n maxchunks }
{
    8 * n as u64 * (1 + maxchunks as u64)
}

// Where the sizes of n tasks stand, numbers of 8 bytes.
pub fn sizes_at(n: usize) -> usize
    requires { n ≤ max_tasks }
    ensures { result ≡ fixed_length + 8 * n }
{
    field::RANKS_AT + 8 * n
}

// Where maxchunks stands, a number of 4 bytes, and behind it start_of_varheader, of 8.
pub fn last_at(n: usize) -> usize
    requires { n ≤ max_tasks }
    ensures { result ≡ last_at n }
{
    field::RANKS_AT + 16 * n
}

// What the layout of a container goes by: its number of tasks, its blocksize, and the requested sizes of its tasks. Behind them there may be more
// numbers, since a record's stripe has an entry for every one of the most tasks, and the rules speak of the whole stripe.
#[derive(Clone, Copy)]
pub struct Layout<'a> {
    pub n: u32,
    pub blocksize: u32,
    pub sizes: &'a [u64],
    pub ghost sound: { Sound blocksize n sizes.now },
}

impl<'a> Layout<'a> {
    // That of a record.
    pub fn of(h: Head, lists: &'a [u64; head::LISTS]) -> Layout<'a>
        requires { Sound h.blocksize h.n (sizes_of lists.now) }
        ensures n { result.n ≡ h.n }
        ensures blocksize { result.blocksize ≡ h.blocksize }
        ensures sizes { result.sizes.now ≡ sizes_of lists.now }
    {
        Layout {
            n: h.n,
            blocksize: h.blocksize,
            sizes: &lists[head::SIZES..head::COUNTS],
        }
    }

    // What a chunk of task i + 1 holds.
    pub fn chunk_holds(&self, i: usize) -> u64
        requires { i < self.now.n }
        ensures { result ≡ capacity self.now.blocksize (get_or self.now.sizes.now i 0) }
    {
        chunk_holds(self.sizes[i], self.blocksize)
    }

    // What a chunk of each task holds, from the list's start on: one rounding for each task.
    pub fn chunks_hold(&self, holds: &mut [u64])
        requires { self.now.n ≤ length holds.old }
        ensures { holds.new ≡ splice holds.old 0 (list_below self.now.n (λ i. capacity self.now.blocksize (get_or self.now.sizes.now i 0))) }
    {
        let sizes = &self.sizes[..self.n as usize];
        for (i, size) in sizes.iter().enumerate() {
            holds[i] = chunk_holds(*size, self.blocksize);
        }
    }

    // The extended sizes of the first i tasks, added up.
    pub fn extended_before(&self, i: usize) -> u64
        requires { i ≤ self.now.n }
        ensures { result ≡ extended_before self.now.blocksize (λ j. get_or self.now.sizes.now j 0) i }
    {
        let mut sum = 0;
        for size in &self.sizes[..i] {
            sum += chunk_holds(*size, self.blocksize);
        }
        sum
    }

    // The extended sizes of all tasks, added up: from a chunk of a task to its next one.
    pub fn global_skip(&self) -> u64
        ensures { result ≡ globalskip self.now.blocksize self.now.n (λ j. get_or self.now.sizes.now j 0) }
    {
        self.extended_before(self.n as usize)
    }

    // Tasks and chunks are counted from 1.
    pub fn chunk_start(&self, task: u64, chunk: u64) -> u64
        requires { (1 ≤ task) × (task ≤ self.now.n) × (1 ≤ chunk) × (chunk ≤ max_blocks) }
        ensures { result ≡ chunk_start self.now.blocksize self.now.n (λ j. get_or self.now.sizes.now j 0) task chunk }
    {
        let before = (task - 1) as usize;
        let first = data_start(self.n, self.blocksize) + self.extended_before(before);
        first + (chunk - 1) * self.global_skip()
    }

    pub fn meta2_start(&self, maxchunks: u32) -> u64
        requires { maxchunks ≤ max_blocks }
        ensures { result ≡ meta2_start self.now.blocksize self.now.n (λ j. get_or self.now.sizes.now j 0) maxchunks }
    {
        data_start(self.n, self.blocksize) + maxchunks as u64 * self.global_skip()
    }

    // Where META2 ends. For as many chunks as are planned, it is the length of the image that a session needs.
    pub fn meta2_end(&self, maxchunks: u32) -> u64
        requires { maxchunks ≤ max_blocks }
        ensures { result ≡ meta2_end self.now.blocksize self.now.n (λ j. get_or self.now.sizes.now j 0) maxchunks }
    {
        self.meta2_start(maxchunks) + meta2_length(self.n, maxchunks)
    }
}

// What the records of a session and of a loaded container share: the numbers of their head, by value, and their lists, lent as one array of
// stripes, ranks, sizes and counts, each with an entry for every one of the most tasks.
use crate::limit::MAX_TASKS;

// Where the stripes of sizes and of counts begin, and how many numbers all stripes have.
pub const SIZES: usize = MAX_TASKS;

pub const COUNTS: usize = 2 * MAX_TASKS;

pub const LISTS: usize = 3 * MAX_TASKS;

// Which physical file of how many a call means: the only one, or the first or the second of a pair (W-204).
#[derive(Clone, Copy)]
pub enum File {
    Single,
    First,
    Second,
}

// `order` is 0 for little and 1 for big; `format` is fileformat_version; `files` is nfiles and `file` is filenumber.
#[repr(C)]
#[derive(Clone, Copy, Default)]
pub struct Head {
    pub order: u32,
    pub version: i32,
    pub patch: i32,
    pub format: u32,
    pub blocksize: u32,
    pub n: u32,
    pub files: u32,
    pub file: u32,
}

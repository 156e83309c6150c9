// The limits of document 01, "Numbers that bound the work", and the two values of fileformat_version (W-209), each once.
pub const PLAIN_FORMAT: u32 = 3;

// In this one a task that wrote nothing has a chunk in use all the same, with no bytes.
pub const IDLE_FORMAT: u32 = 4;

pub const MAX_TASKS: usize = 64;

pub const MIN_BLOCKSIZE: u32 = 512;

pub const MAX_BLOCKSIZE: u32 = 4_194_304;

pub const MAX_SIZE: u64 = 1_073_741_824;

pub const MAX_BLOCKS: u32 = 32;

pub const MAX_RANK: u64 = 2_147_483_647;

// A budget of byte stores that no call spends: it stores no more bytes than its image has.
pub const ENDLESS: u64 = 18_446_744_073_709_551_615;

// META1's table of fields (document 01, "The first metadata block"): where each stands and the values that are fixed, for who judges META1 and
// for who stores it.

pub const MAGIC: [u8; 4] = *b"sion";

// The eight numbers of 4 bytes that follow it.
pub const ORDER_AT: usize = 4;

pub const VERSION_AT: usize = 8;

pub const PATCH_AT: usize = 12;

pub const FORMAT_AT: usize = 16;

pub const BLOCKSIZE_AT: usize = 20;

pub const TASKS_AT: usize = 24;

pub const FILES_AT: usize = 28;

pub const FILE_NUMBER_AT: usize = 32;

// The two flags of 8 bytes, and the filename prefix of PREFIX bytes.
pub const FLAGS_AT: usize = 36;

pub const PREFIX_AT: usize = 52;

pub const PREFIX: usize = 1024;

// The ranks, numbers of 8 bytes, behind the fields that every META1 has at the same place.
pub const RANKS_AT: usize = 1076;

// The number that tells the byte order.
pub const ORDER: u32 = 1;

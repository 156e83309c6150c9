// A pair of physical files (W-204) over memory that the caller lends: all entries, with what is promised of them together.
#![tactic(auto)]

pub use pair_closing::{close, close_within};
pub use pair_loading::load;
pub use pair_opening::{needs, open, open_within};
pub use pair_reads::{chunk, part, read, test_chunk, total, try_chunk};
pub use pair_writing::{write, write_within};

// One container of the SIONlib file format over memory that the caller lends: all entries, with what is promised of them together.
#![tactic(auto)]

pub use about::{chunk_size, prefix, whole_length};
pub use chunks::{chunk, part, test_chunk, try_chunk};
pub use closing::{close, close_within};
pub use loading::load;
pub use opening::{needs, open, open_within};
pub use reads::{read, total};
pub use writing::{write, write_within};

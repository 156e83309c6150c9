// An input read whole (`input`), and a text written whole (`output`).
#![tactic(auto)]

pub mod input;
pub mod output;

// A read or a write that a signal interrupts is made again, up to so many times in a row; after that it has failed. No row of signals is that
// long: the bound is there because every loop is proved to end.
const AGAIN: u32 = 1_000_000_000;

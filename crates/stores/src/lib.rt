// The stores of bytes: the two that all others go through, each also within a budget (`memory`), and numbers of 4 and 8 bytes in either byte order
// (`numbers`).
#![tactic(auto)]

pub mod memory;
pub mod numbers;

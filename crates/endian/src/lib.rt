// Numbers of 4 and 8 bytes in either byte order, unsigned and signed: what one is (`numbers`), and how one or many are read (`read`).
#![tactic(auto)]

pub mod numbers;
pub mod read;

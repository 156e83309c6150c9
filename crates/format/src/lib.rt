// Document 01 as definitions: here the structs, the limits, the places of META1's fields, the kinds of fields and the refusals, each with its number,
// and what C is handed for an answer; in specs/ the rules, one file for each section of the paper; in proofs/ the laws of these rules and the paper's
// numbers.
#![tactic(auto)]

pub mod fault;
pub mod field;
pub mod head;
pub mod limit;
pub mod loaded;
pub mod refusal;
pub mod session;

// The rules for the numbers of a container and of a record, as tests: each limit (`limits`), and a head with its lists (`heads`).
#![tactic(auto)]

pub mod heads;
pub mod limits;

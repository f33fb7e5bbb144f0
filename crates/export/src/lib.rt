// The machine for firmware in C or Rust: kept as words that the caller lends, called with numbers, answered in four words.
#![tactic(auto)]

pub mod exported;
pub mod reading;
pub mod writing;

// What a session says: a setup and calls, heard as numbers.
#![tactic(auto)]

pub mod grammar;

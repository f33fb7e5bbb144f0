// The step machine: up to four queues and their threads over one lent pool of rings.
#![tactic(auto)]

pub mod begin;
pub mod call;
pub mod claim;
pub mod setup;
pub mod shown;
pub mod soundness;
pub mod state;
pub mod step;
pub mod tests;

// What a step works on: the queue, the thread's stage in its operation, what a claim found, and what the step leaves.
#![tactic(auto)]

pub mod answer;
pub mod out;
pub mod queue;
pub mod stage;

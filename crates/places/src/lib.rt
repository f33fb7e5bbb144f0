// Which places are in use, by the queues' rings and by the rings that the threads keep.
#![tactic(auto)]

mod apart;
mod kept;
pub mod rings;
mod used;

// The queues over natural numbers and rings that are never used again, with the proof that no job is lost and none doubled. In specs/ and
// proofs/ alone: no code.
#![tactic(auto)]

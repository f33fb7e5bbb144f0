// What is proved of whole sessions: no job is lost and none doubled, and every reached state is sound. In specs/ and proofs/ alone: no code.
#![tactic(auto)]

// The machine's states as states of the model: the tables agree, and linked states are sound. In specs/ and proofs/ alone: no code.
#![tactic(auto)]

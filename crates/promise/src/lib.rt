// Wrong machines that the promises shut out. In specs/ and proofs/ alone: no code.
#![tactic(auto)]

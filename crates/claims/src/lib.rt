// What this project claims, each claim with its full type and proved by the name under which it stands elsewhere. In proofs/ alone: no code.
#![tactic(auto)]

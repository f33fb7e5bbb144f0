// Computed examples for each clause of the definitions, which a reader can believe without them. In specs/ alone: no code.
#![tactic(auto)]

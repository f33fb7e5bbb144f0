// Why a promise lets one answer pass and no second: once over its form, and for each public call. In specs/ and proofs/ alone: no code.
#![tactic(auto)]

// What is proved of a row of exported calls: it is a session, so no job is lost and none doubled. In specs/ and proofs/ alone: no code.
#![tactic(auto)]

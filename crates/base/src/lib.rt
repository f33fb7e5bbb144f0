// What every crate uses: tests, what holds below a number, powers of two. Definitions and laws alone, in specs/ and proofs/.
#![tactic(auto)]

// Finite sets and monotone steps on them: mathematics only, in specs/ and proofs/.
#![tactic(auto)]

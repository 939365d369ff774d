// Definite programs, and-or systems, standardising: mathematics only, in specs/ and proofs/.
#![tactic(auto)]

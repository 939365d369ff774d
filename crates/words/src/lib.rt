// Words as sets of bits and rows of words as sets of atoms: laws only, in specs/ and proofs/.
#![tactic(auto)]

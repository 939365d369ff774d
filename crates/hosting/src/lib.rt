// What the lister and the call for C answer and leave: definitions and theorems, no code.
#![tactic(auto)]

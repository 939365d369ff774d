// What the plain route, the listing and the solver answer and leave, and demand 3: mathematics only.
#![tactic(auto)]

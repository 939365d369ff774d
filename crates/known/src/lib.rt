// The books that document 01 settles: mathematics only.
#![tactic(auto)]

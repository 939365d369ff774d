// What the calls on tables and rows answer and leave: mathematics only.
#![tactic(auto)]

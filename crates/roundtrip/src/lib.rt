// Writing tables and reading the text again: mathematics only.
#![tactic(auto)]

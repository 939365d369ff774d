// The text of a book as document 01 states it, and a classifier of lines that agrees with it. No code here.
#![tactic(auto)]

// Names by number, the tables of a book, and its written text. No code here.
#![tactic(auto)]

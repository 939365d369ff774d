// What the test programs share: the files that their arguments name and the lines of such a file, the areas that they lend, and what they print.
#![tactic(auto)]

pub mod calls;
pub mod files;
pub mod lent;
pub mod lines;
pub mod print;

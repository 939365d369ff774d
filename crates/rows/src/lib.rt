// Leaf functions over rows of words, for any width, and clearing for elements of any width.
#![tactic(auto)]

pub mod clear;
pub mod members;
pub mod row;

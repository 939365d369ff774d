// Bytes and places of a text: the folding table, and a cursor that goes in and comes out moved on.
#![tactic(auto)]

pub mod cursor;
pub mod letters;
pub mod table;

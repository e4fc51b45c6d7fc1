// Bytes to table: the lines of a file, and the order, fields, names and ceilings of each row.
#![tactic(auto)]

// the whole file: refusals 3 to 7
pub mod read;

// Program: the text of a sheet, on byte slices: what is read, the move, and what is printed.
#![tactic(auto)]

pub mod sheet;

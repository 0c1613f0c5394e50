// Tests: the text of stored vectors. A line is a call's name and then words, each after one space: 16
// lowercase hexadecimal digits, the bits of an f64 or a whole number. Lines are counted by call.
#![tactic(auto)]

pub mod count;
pub mod float;
pub mod name;
pub mod outcome;
pub mod word;

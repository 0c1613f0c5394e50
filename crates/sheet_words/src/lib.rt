// Inside (`sheet_text`): the words of a sheet's text, numbers and words read and printed.
#![tactic(auto)]

pub mod float;
pub mod print;
pub mod read;
pub mod request;

// Inside (`stopping`): the exchange with dlaexc's tests, which writes nothing where one fails.
#![tactic(auto)]

pub mod exchange;
mod standard;
mod swap;

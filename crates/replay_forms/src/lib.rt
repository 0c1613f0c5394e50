// Tests: lines of the calls on forms: exchange, moves, vectors, block values and column. Their words begin
// with the lengths of the buffers, so that buffers of any length that a room holds can stand in a line.
#![tactic(auto)]

pub mod buffers;
pub mod head;
pub mod moves;
pub mod vectors;

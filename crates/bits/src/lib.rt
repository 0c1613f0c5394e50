// Inside (`evd`, `sheet_words`, `sheet_text`, `replay_text`, `replay_calls`, `replay_forms`, `replay_lists`): floats by
// their bits, every NaN as one, hexadecimal digits, and slices filled from others.
#![tactic(auto)]

pub mod fill;
pub mod float;
pub mod hex;

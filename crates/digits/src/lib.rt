// Digits and bytes: the numbers of the bus documents, written and read back; and the refusal numbers.
#![tactic(auto)]

pub mod decimal;
pub mod hex;
pub mod low_first;
pub mod refusal;
pub mod slices;

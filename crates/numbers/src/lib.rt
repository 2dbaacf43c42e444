// Raw numbers: their decimal text, their bytes, and what the wall panel is shown, each exactly.
#![tactic(auto)]

pub mod byte_values;
pub mod panel;
mod raw;
pub mod single;
pub mod text;

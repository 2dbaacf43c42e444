// Frames from their fields: the layout's bytes from the front of a lent room, with the check values worked out.
#![tactic(auto)]

pub mod homiq;
pub mod nest;
pub mod nibe;
pub mod nikobus;

// Check values of the four buses. Each check has a state type of its own, in its bus's module: the table of claims names the functions of
// each, and a function there has no type parameter. What they do is written once, in `bitwise`.
#![tactic(auto)]

mod bitwise;
pub mod homiq;
pub mod nest;
pub mod nibe;
pub mod nikobus;
pub mod rule;

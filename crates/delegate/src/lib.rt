// The delegate's compute_goal between its calls: a group of parts before its first part,
// after each, and at its end; and a pick likewise.
#![tactic(auto)]

pub mod group;
pub mod pick;

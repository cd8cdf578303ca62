// The order of a table's calls, or the cycle shown.
#![tactic(auto)]

mod back;
mod lows;
pub mod order;
mod show;
mod walk;

// Place all calls of a table that can be placed.
#![tactic(auto)]

mod blocks;
pub mod place;
pub mod queue;
mod release;
pub mod thread;
mod waiting;

// How many calls were placed, and the last of them; 255 where none was.
// Stays: `stands` (specs/Thread) gives the first placed call's byte as 255, the `last` before it.
#[derive(Clone, Copy)]
pub struct Placed {
    pub count: usize,
    pub last: u8,
}

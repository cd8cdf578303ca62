// A call number as one of step, get, set and no call, and which call comes before which.
#![tactic(auto)]

pub mod number;
pub mod precedence;

#[derive(Clone, Copy)]
pub enum Call {
    Step(usize),
    Get(usize),
    Set(usize),
    // Stays: SPECIFICATION, Forms 1: a `match` on the kind has an arm for no call.
    NoCall,
}

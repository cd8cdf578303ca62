// The packed table: its parts and its check.
#![tactic(auto)]

ghost use Rattle.std.specs.Prelude.{◌≡◌};
ghost use Rattle.table.specs.Fault.{fault_number, refused};

pub mod check;
pub mod parts;
pub mod sound;

// A number and a place: what every call on packed tables answers.
#[repr(C)]
#[derive(Clone, Copy)]
pub struct Answer {
    pub number: u8,
    pub place: usize,
}

// What is wrong with a table, in the order of their numbers 1 to 7.
#[derive(Clone, Copy, PartialEq, Eq)]
pub enum Fault {
    Length,
    Count,
    Owner,
    Kind,
    Source,
    Feed,
    FeedTwice,
}

impl Fault {
    // The number of SPECIFICATION, Packed table 6.
    pub fn number(self) -> u8
        ensures { result ≡ fault_number self }
    {
        match self {
            Fault::Length => 1,
            Fault::Count => 2,
            Fault::Owner => 3,
            Fault::Kind => 4,
            Fault::Source => 5,
            Fault::Feed => 6,
            Fault::FeedTwice => 7,
        }
    }
}

// A refusal has place 0.
impl From<Fault> for Answer {
    ghost from_gives = { λ fault answer. answer ≡ refused fault };

    fn from(fault: Fault) -> Answer {
        Answer {
            number: fault.number(),
            place: 0,
        }
    }
}

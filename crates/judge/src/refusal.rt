// Why a call or an order is refused, and where: SPECIFICATION, Judging 3, 4 and 7.
ghost use Rattle.std.specs.Prelude.{◌≡◌};
ghost use Rattle.judge.specs.declared.refusal.Refusal.TheVariants.{Unsound};
ghost use Rattle.judge.specs.Refused.{refusal_number, unsound, told};

use table::{Answer, Fault};

// What is wrong with the table, with a call or with the end of an order.
#[derive(Clone, Copy)]
pub enum Refusal {
    Unsound(Fault),
    NoCall,
    DoneBefore,
    DelayedSet,
    ReactiveNotSet,
    NotStepped,
    FeedingNotSet,
    SourceNotGot,
    Ended,
}

impl Refusal {
    // Its number: 1 to 7, or 11 to 18.
    pub fn number(self) -> u8
        ensures { result ≡ refusal_number self }
    {
        match self {
            Refusal::Unsound(fault) => fault.number(),
            Refusal::NoCall => 11,
            Refusal::DoneBefore => 12,
            Refusal::DelayedSet => 13,
            Refusal::ReactiveNotSet => 14,
            Refusal::NotStepped => 15,
            Refusal::FeedingNotSet => 16,
            Refusal::SourceNotGot => 17,
            Refusal::Ended => 18,
        }
    }
}

impl From<Fault> for Refusal {
    ghost from_gives = { λ fault refusal. refusal ≡ Unsound fault };

    fn from(fault: Fault) -> Refusal {
        Refusal::Unsound(fault)
    }
}

// Where the judging of an order stops, and why.
#[derive(Clone, Copy)]
pub struct Stop {
    pub refusal: Refusal,
    pub place: usize,
}

// A table is refused at place 0.
impl From<Fault> for Stop {
    ghost from_gives = { λ fault stop. stop ≡ unsound fault };

    fn from(fault: Fault) -> Stop {
        Stop {
            refusal: Refusal::Unsound(fault),
            place: 0,
        }
    }
}

impl From<Stop> for Answer {
    ghost from_gives = { λ stop answer. answer ≡ told stop };

    fn from(stop: Stop) -> Answer {
        Answer {
            number: stop.refusal.number(),
            place: stop.place,
        }
    }
}

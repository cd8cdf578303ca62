// The judge: a run that takes one call at a time, and the verdict on an order.
#![tactic(auto)]

ghost use Rattle.std.specs.Prelude.{◌≡◌, ◌↔◌, cond, eqb, set, true};
ghost use Rattle.table.specs.Packed.{shape_of};
ghost use Rattle.table.specs.Sound.{Sound};
ghost use Rattle.table.specs.Check.{refusal};
ghost use Rattle.judging.specs.Conditions.{refusal_at};
ghost use Rattle.judging.specs.Passes.{Passes};
ghost use Rattle.judging.specs.Verdict.{verdict_of};
ghost use Rattle.search.specs.Sets.{none};
ghost use Rattle.judge.specs.Marks.{marks};
ghost use Rattle.judge.specs.Refused.{number_of};
ghost use Rattle.judge.specs.Taken.{fresh, taken};

use crate::refusal::Refusal;
use table::Answer;
use table::sound::Table;

mod asked;
mod conditions;
pub mod records;
mod refusal;

// Which call numbers below 224 are done.
#[repr(C)]
#[derive(Clone, Copy)]
pub struct Run {
    pub done: [bool; 224],
}

// The run after a call, with the number that the call is answered.
// Stays: C gets the two by value (SPECIFICATION, Forms 3).
#[repr(C)]
#[derive(Clone, Copy)]
pub struct Taken {
    pub run: Run,
    pub number: u8,
}

impl Run {
    // The start, where no call is done.
    #[tactic(auto, unfolding(crate::specs::Taken::fresh))]
    pub fn new() -> Run
        ensures { result ≡ fresh }
    {
        Run { done: [false; 224] }
    }

    // One call: 1 to 7 for an unsound table, or 11 to 17, with the run as it was; 0 with the next.
    #[tactic(auto, unfolding(crate::specs::Taken::taken, crate::specs::Taken::advanced))]
    pub fn take(self, table: &[u8], call: usize) -> Taken
        ensures { result ≡ taken table.now self call }
    {
        match self.bars(table, call) {
            Ok(()) => {
                let mut run = self;
                run.done[call] = true;
                Taken { run, number: 0 }
            }
            Err(refusal) => Taken {
                run: self,
                number: refusal.number(),
            },
        }
    }

    // Why a call is refused, of any table. A frame of its own, so that `take` copies the run once.
    #[inline(never)]
    fn bars(&self, table: &[u8], call: usize) -> Result<(), Refusal>
        ensures { number_of result ≡ cond (eqb (refusal table.now) 0)
            (refusal_at (shape_of table.now) (marks self.now.done) call)
            (refusal table.now) }
    {
        let table = Table::new(table)?;
        self.allows(table, call)
    }

    // One call on a sound table: it is done, or refused with nothing changed.
    fn mark(&mut self, table: Table, call: usize) -> Result<(), Refusal>
        ensures value { number_of result
            ≡ refusal_at (shape_of table.entry.bytes.now) (marks self.old.done) call }
        ensures run_after { self.new.done
            ≡ cond (eqb (number_of result) 0) (set self.old.done call true) self.old.done }
    {
        self.allows(table, call)?;
        self.done[call] = true;
        Ok(())
    }
}

// The verdict on an order: the table first, then each call; passing answers 0 with N.
pub fn verdict(table: &[u8], order: &[u8]) -> Answer
    ensures value { result ≡ verdict_of table.now order.now }
    ensures variant { (result.number ≡ 0)
        ↔ (Sound table.now
        × Passes (shape_of table.now) none order.now) }
{
    asked::judged(table, order)
}

// The calls of an order in turn, whatever stands for a call in it.
ghost use Rattle.std.specs.Prelude.{◌≡◌, ℕ, map};
ghost use Rattle.table.specs.Shape.{Shape};
ghost use Rattle.table.specs.Packed.{shape_of};
ghost use Rattle.judging.specs.Verdict.{verdict_of};
ghost use Rattle.judge.specs.Refused.{answer_of};

use crate::Run;
use crate::refusal::{Refusal, Stop};
use table::Answer;
use table::sound::Table;

// What stands for a call of a table.
pub trait Asked: Copy {
    ghost number: { Shape → Self → ℕ };

    // The number of the call.
    fn number_in(self, table: Table) -> usize
        ensures { result ≡ number (shape_of table.entry.bytes.now) self };
}

// A byte is a call number.
impl Asked for u8 {
    ghost number = { λ s call. call };

    fn number_in(self, _table: Table) -> usize {
        self as usize
    }
}

// How many calls were taken, all N of them; or the first refusal with its place.
fn in_turn<A: Asked>(table: &[u8], calls: &[A]) -> Result<usize, Stop>
    ensures { answer_of result
        ≡ verdict_of table.now (map (A.number (shape_of table.now)) calls.now) }
{
    let table = Table::new(table)?;
    let mut run = Run::new();
    for (place, call) in calls.iter().enumerate() {
        if let Err(refusal) = run.mark(table, call.number_in(table)) {
            return Err(Stop { refusal, place });
        }
    }
    let place = calls.len();
    if place != table.call_count() {
        return Err(Stop {
            refusal: Refusal::Ended,
            place,
        });
    }
    Ok(place)
}

// The verdict on the calls: 0 with N, or the first refusal.
pub fn judged<A: Asked>(table: &[u8], calls: &[A]) -> Answer
    ensures { result ≡ verdict_of table.now (map (A.number (shape_of table.now)) calls.now) }
{
    match in_turn(table, calls) {
        Ok(place) => Answer { number: 0, place },
        Err(stop) => Answer::from(stop),
    }
}

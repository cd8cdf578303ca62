// The verdict on the firmware's own schedule, a lent slice of records: SPECIFICATION, Records.
ghost use Rattle.std.specs.Prelude.{◌≡◌};
ghost use Rattle.table.specs.Packed.{shape_of};
ghost use Rattle.judging.specs.Verdict.{verdict_of};
ghost use Rattle.judge.specs.Records.{numbered, all_numbered};

use crate::asked::{Asked, judged};
use table::Answer;
use table::sound::Table;

// Kind 0, 1 or 2 for step, get, set, and the number counted within its kind.
// Stays: C lends a slice of them, and its byte may be any kind (SPECIFICATION, Forms 5).
#[repr(C)]
#[derive(Clone, Copy)]
pub struct Record {
    pub kind: u8,
    pub number: u8,
}

impl Asked for Record {
    ghost number = { numbered };

    // Stays: N, which is no call, where its kind or its number names none: `numbered` says so.
    #[tactic(auto, unfolding(crate::specs::Records::numbered))]
    fn number_in(self, table: Table) -> usize {
        let u = table.unit_count();
        let y = table.output_count();
        let x = table.input_count();
        let number = self.number as usize;
        match self.kind {
            0 if number < u => number,
            1 if number < y => u + number,
            2 if number < x => u + y + number,
            _ => u + y + x,
        }
    }
}

// The verdict on a list of records: that on their call numbers.
pub fn verdict_of_records(table: &[u8], records: &[Record]) -> Answer
    ensures { result
        ≡ verdict_of
        table.now
        (all_numbered (shape_of table.now) records.now) }
{
    judged(table, records)
}

// Orders given as records, as the firmware's own schedule is.
ghost use Rattle.std.specs.Prelude.{◌≡◌};
ghost use Rattle.table.specs.Packed.{shape_of};
ghost use Rattle.judging.specs.Verdict.{verdict_of};
ghost use Rattle.judge.specs.Records.{all_numbered};

use crate::shown::Given;
use crate::tables::{A, C, G};
use judge::records::{Record, verdict_of_records};
use std::io;
use table::Answer;

// The step of a unit, as a record.
fn step(unit: u8) -> Record {
    Record {
        kind: 0,
        number: unit,
    }
}

// The get of an output.
fn get(output: u8) -> Record {
    Record {
        kind: 1,
        number: output,
    }
}

// The set of an input.
fn set(input: u8) -> Record {
    Record {
        kind: 2,
        number: input,
    }
}

// The verdict on six records.
fn verdict_on(table: &[u8], records: [Record; 6]) -> Answer
    ensures { result ≡ verdict_of table.now
        (all_numbered (shape_of table.now) records) }
{
    verdict_of_records(table, &records)
}

// What the verdict on a list gives.
fn judged(rt: &impl Print, name: &str, answer: Answer) -> io::Result<()> {
    println!(rt; "records on {name} {}", Given::from(answer))
}

// Lists on A, C and G, of six records each; what stands behind a refusal is not looked at.
pub fn all(rt: &impl Print) -> io::Result<()> {
    let order = [step(0), get(0), set(1), step(1), get(1), set(0)];
    judged(rt, "A: 0 2 5 1 3 4", verdict_on(&A, order))?;
    judged(rt, "C: 0 2 5 1", verdict_on(&C, order))?;
    let no_unit = [step(2), get(0), set(1), step(1), get(1), set(0)];
    judged(rt, "A: step 2", verdict_on(&A, no_unit))?;
    let third = Record { kind: 3, number: 0 };
    let no_kind = [step(0), third, set(1), step(1), get(1), set(0)];
    judged(rt, "A: 0, then kind 3", verdict_on(&A, no_kind))?;
    let unset = [step(0), step(1), get(0), set(1), get(1), set(0)];
    judged(rt, "A: 0 1", verdict_on(&A, unset))?;
    let unfed = [step(0), step(1), get(1), set(0), get(0), set(1)];
    judged(rt, "G: 0 1 3", verdict_on(&G, unfed))
}

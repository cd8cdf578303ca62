// From a call number to its kind and its place within the kind.
#![tactic(auto, unfolding(crate::specs::Number::call_in))]

ghost use Rattle.std.specs.Prelude.{◌≡◌};
ghost use Rattle.table.specs.Packed.{shape_of};
ghost use Rattle.calls.specs.Number.{call_in, call_of};

use crate::Call;
use table::parts::{input_count, output_count, unit_count};
use table::sound::Table;

// The call that a number stands for, where there are so many units, outputs and inputs.
pub fn call_in(units: usize, outputs: usize, inputs: usize, number: usize) -> Call
    ensures { result ≡ call_in units outputs inputs number }
{
    if number < units {
        return Call::Step(number);
    }
    let past = number - units;
    if past < outputs {
        return Call::Get(past);
    }
    let rest = past - outputs;
    if rest < inputs {
        return Call::Set(rest);
    }
    Call::NoCall
}

// The call of a table that a number stands for.
pub fn call_of(table: &[u8], number: usize) -> Call
    ensures { result ≡ call_of (shape_of table.now) number }
{
    call_in(
        unit_count(table),
        output_count(table),
        input_count(table),
        number,
    )
}

// The call of a sound table that a number stands for.
pub fn call_at(table: Table, number: usize) -> Call
    ensures { result ≡ call_of (shape_of table.entry.bytes.now) number }
{
    call_in(
        table.unit_count(),
        table.output_count(),
        table.input_count(),
        number,
    )
}

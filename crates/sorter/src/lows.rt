// Two passes before the walk: the lowest input that keeps each step and each get waiting.
ghost use Rattle.std.specs.Prelude.{◌≡◌, ◌<◌, length};
ghost use Rattle.table.specs.Packed.{shape_of};
ghost use Rattle.calls.specs.Number.{set_no};
ghost use Rattle.orders.specs.Walk.{among};
ghost use Rattle.bits.specs.Bits.{has};
ghost use Rattle.placing.specs.Placing.{call_count, placed_of};
ghost use Rattle.sorter.specs.Lows.{LowSteps, LowGets};

use bits::Bits;
use table::sound::Table;

// The number of an input's set.
pub fn set_of(table: Table, input: u8) -> usize
    ensures { result ≡ set_no (shape_of table.entry.bytes.now) input }
{
    table.unit_count() + table.output_count() + input as usize
}

// For each unit and each output the lowest input that keeps its step or get waiting; X where none
// does. So it is where all that can be placed is, and some call is left.
// Stays: X for none, as `LowSteps` and `LowGets` say; an Option at each place takes two bytes.
#[derive(Clone, Copy)]
pub struct Lows<'a> {
    pub table: Table<'a>,
    pub steps: &'a [u8; 32],
    pub gets: &'a [u8; 96],
    ghost early: { length (placed_of table.bytes.now) < call_count table.bytes.now },
    ghost low_steps: { LowSteps table.bytes.now (among (placed_of table.bytes.now)) steps.now },
    ghost low_gets: { LowGets table.bytes.now (among (placed_of table.bytes.now)) gets.now },
}

// For each unit the lowest of its reactive inputs whose set is not marked; X where there is none.
// Stays: answered by value the lows lie in the frame twice, and `order` is past 640 bytes of stack.
pub fn low_steps(table: Table, marks: &Bits, lows: &mut [u8; 32])
    ensures { LowSteps table.entry.bytes.now (has marks.now.words) lows.new }
{
    let owners = table.input_owners();
    let kinds = table.input_kinds();
    let inputs = table.input_count();
    *lows = [inputs as u8; 32];
    for input in (0..inputs as u8).rev() {
        let x = input as usize;
        if kinds[x] == 1 && !marks.has(set_of(table, input)) {
            lows[owners[x] as usize] = input;
        }
    }
}

// For each output the lowest input that feeds it, its set not marked; X where there is none.
pub fn low_gets(table: Table, marks: &Bits, lows: &mut [u8; 96])
    ensures { LowGets table.entry.bytes.now (has marks.now.words) lows.new }
{
    *lows = [table.input_count() as u8; 96];
    for pair in table.feed_pairs().chunks_exact(2) {
        let input = pair[0];
        let output = pair[1] as usize;
        if input < lows[output] && !marks.has(set_of(table, input)) {
            lows[output] = input;
        }
    }
}

// One step of the backward walk: the lowest remaining direct predecessor of a call, by its kind.
ghost use Rattle.std.specs.Prelude.{◌≡◌, not, ◌<◌, T};
ghost use Rattle.table.specs.Packed.{units, outputs, inputs, shape_of};
ghost use Rattle.calls.specs.Number.{get_no, set_no};
ghost use Rattle.calls.specs.Precedence.{precedes};
ghost use Rattle.orders.specs.Walk.{among, lowest_before};
ghost use Rattle.placing.specs.Placing.{call_count, placed_of};

use crate::lows::{Lows, set_of};
use calls::Call;
use calls::number::call_at;

impl Lows<'_> {
    // Does the step of the unit remain? It does where the set of a reactive input does.
    fn step_left(self, unit: usize) -> bool
        requires { unit < units self.table.bytes.now }
        ensures { result ≡ not (among (placed_of self.entry.table.bytes.now) unit) }
    {
        (self.steps[unit] as usize) < self.table.input_count()
    }

    // Of a get: its unit's step, then the set of the lowest input that feeds it.
    fn before_get(self, output: usize) -> usize
        requires { output < outputs self.table.bytes.now }
        ensures { result ≡ lowest_before (call_count self.entry.table.bytes.now)
            (precedes (shape_of self.entry.table.bytes.now))
            (among (placed_of self.entry.table.bytes.now))
            (get_no (shape_of self.entry.table.bytes.now) output) }
    {
        let step = self.table.output_owners()[output] as usize;
        if self.step_left(step) {
            return step;
        }
        set_of(self.table, self.gets[output])
    }

    // Of a set: the step of its unit where it is delayed, then its source's get.
    fn before_set(self, input: usize) -> usize
        requires bound { input < inputs self.table.bytes.now }
        requires remains { T (not (among (placed_of self.table.bytes.now)
            (set_no (shape_of self.table.bytes.now) input))) }
        ensures { result ≡ lowest_before (call_count self.entry.table.bytes.now)
            (precedes (shape_of self.entry.table.bytes.now))
            (among (placed_of self.entry.table.bytes.now))
            (set_no (shape_of self.entry.table.bytes.now) input) }
    {
        if self.table.input_kinds()[input] == 0 {
            let step = self.table.input_owners()[input] as usize;
            if self.step_left(step) {
                return step;
            }
        }
        self.table.unit_count() + self.table.input_sources()[input] as usize
    }

    // The lowest remaining direct predecessor of a call that remains.
    pub fn lowest_before(self, call: usize) -> usize
        requires bound { call < call_count self.table.bytes.now }
        requires remains { T (not (among (placed_of self.table.bytes.now) call)) }
        ensures { result ≡ lowest_before (call_count self.entry.table.bytes.now)
            (precedes (shape_of self.entry.table.bytes.now))
            (among (placed_of self.entry.table.bytes.now))
            call }
    {
        match call_at(self.table, call) {
            Call::Step(unit) => set_of(self.table, self.steps[unit]),
            Call::Get(output) => self.before_get(output),
            Call::Set(input) => self.before_set(input),
            Call::NoCall => call,
        }
    }
}

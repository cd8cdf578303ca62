// A call that is placed no longer keeps its direct successors waiting.
ghost use Rattle.std.specs.Prelude.{◌≡◌, ℕ, ◌≤◌, ◌<◌, get_or};
ghost use Rattle.table.specs.Packed.{units, outputs, inputs, shape_of};
ghost use Rattle.calls.specs.Number.{get_no, set_no};
ghost use Rattle.calls.specs.Given.{only, into, own_step};
ghost use Rattle.placing.specs.Placing.{call_count};
ghost use Rattle.placing.specs.Blocks.{Owned, Joined};
ghost use Rattle.placing.specs.Lowers.{Lowers};

use crate::queue::Queue;
use calls::Call;
use calls::number::call_at;
use table::sound::Table;

// A table, with the blocks of its rows in which each unit, and each input and output, is named.
#[derive(Clone, Copy)]
pub struct Noted<'a> {
    pub table: Table<'a>,
    pub own: &'a [u8; 32],
    pub mask: &'a [u8; 96],
    ghost owned: { Owned table.bytes.now own.now },
    ghost joined: { Joined table.bytes.now mask.now },
}

impl<'a> Noted<'a> {
    // A step releases the gets of its unit's outputs and the sets of its delayed inputs.
    fn release_step(self, unit: usize, queue: &mut Queue)
        requires unit_bound { unit < units self.table.bytes.now }
        requires enough { (c : ℕ) → into (shape_of self.table.bytes.now) (only unit) c
            ≤ get_or queue.old.waiting c 0 }
        ensures { Lowers (into (shape_of self.entry.table.bytes.now) (only unit))
            queue.old queue.new }
    {
        let gets = self.table.unit_count();
        let sets = gets + self.table.output_count();
        let outputs = self.table.output_owners();
        let inputs = self.table.input_owners();
        let kinds = self.table.input_kinds();
        let notes = self.own[unit];
        queue.lower_noted(outputs.len(), 24, 0, notes, |y| {
            (outputs[y] == unit as u8).then_some(gets + y)
        });
        queue.lower_noted(inputs.len(), 24, 4, notes, |x| {
            (inputs[x] == unit as u8 && kinds[x] == 0).then_some(sets + x)
        });
    }

    // A get releases the sets of the inputs joined to it.
    fn release_get(self, output: usize, queue: &mut Queue)
        requires output_bound { output < outputs self.table.bytes.now }
        requires enough { (c : ℕ) → into (shape_of self.table.bytes.now)
            (only (get_no (shape_of self.table.bytes.now) output)) c
            ≤ get_or queue.old.waiting c 0 }
        ensures { Lowers (into (shape_of self.entry.table.bytes.now)
            (only (get_no (shape_of self.entry.table.bytes.now) output)))
            queue.old queue.new }
    {
        let sets = self.table.unit_count() + self.table.output_count();
        let sources = self.table.input_sources();
        let notes = self.mask[output];
        queue.lower_noted(sources.len(), 24, 4, notes, |x| {
            (sources[x] == output as u8).then_some(sets + x)
        });
    }

    // A reactive set releases the step of its unit.
    fn release_unit(self, input: usize, queue: &mut Queue)
        requires input_bound { input < inputs self.table.bytes.now }
        requires enough { (c : ℕ) → own_step (shape_of self.table.bytes.now) input c
            ≤ get_or queue.old.waiting c 0 }
        ensures { Lowers (own_step (shape_of self.entry.table.bytes.now) input)
            queue.old queue.new }
    {
        let kinds = self.table.input_kinds();
        if kinds[input] == 1 {
            let owners = self.table.input_owners();
            queue.lower(owners[input] as usize);
        }
    }

    // A set releases the gets of the outputs that it feeds; where reactive, its unit's step too.
    fn release_set(self, input: usize, queue: &mut Queue)
        requires input_bound { input < inputs self.table.bytes.now }
        requires enough { (c : ℕ) → into (shape_of self.table.bytes.now)
            (only (set_no (shape_of self.table.bytes.now) input)) c
            ≤ get_or queue.old.waiting c 0 }
        ensures { Lowers (into (shape_of self.entry.table.bytes.now)
            (only (set_no (shape_of self.entry.table.bytes.now) input)))
            queue.old queue.new }
    {
        let gets = self.table.unit_count();
        let pairs = self.table.feed_pairs();
        let notes = self.mask[input];
        queue.lower_noted(self.table.feed_count(), 32, 0, notes, |k| {
            (pairs[2 * k] == input as u8).then_some(gets + pairs[2 * k + 1] as usize)
        });
        self.release_unit(input, queue);
    }

    // The call that is placed releases its direct successors.
    pub fn release(self, call: usize, queue: &mut Queue)
        requires call_bound { call < call_count self.table.bytes.now }
        requires enough { (c : ℕ) → into (shape_of self.table.bytes.now) (only call) c
            ≤ get_or queue.old.waiting c 0 }
        ensures { Lowers (into (shape_of self.entry.table.bytes.now) (only call))
            queue.old queue.new }
    {
        match call_at(self.table, call) {
            Call::Step(unit) => self.release_step(unit, queue),
            Call::Get(output) => self.release_get(output, queue),
            Call::Set(input) => self.release_set(input, queue),
            Call::NoCall => {}
        }
    }
}

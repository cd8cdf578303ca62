// The conditions of one call on a sound table: SPECIFICATION, Judging 4.
ghost use Rattle.std.specs.Prelude.{
  ◌≡◌,
  ◌&&◌,
  ◌+◌,
  ◌*◌,
  ◌≤◌,
  ◌<◌,
  cond,
  eqb,
  false,
  length,
  not,
};
ghost use Rattle.table.specs.Packed.{inputs, outputs, pair_input, pair_output, shape_of};
ghost use Rattle.calls.specs.declared.Call.TheVariants.{Step, Get, Set};
ghost use Rattle.judging.specs.Conditions.{early, unset, unfed, refusal_of, refusal_at};
ghost use Rattle.judge.specs.Marks.{marks};
ghost use Rattle.judge.specs.Refused.{number_of};

use crate::Run;
use crate::refusal::Refusal;
use calls::Call;
use calls::number::call_at;
use table::sound::Table;

#[tactic(auto, unfolding(crate::specs::Opened::conditions))]
impl Run {
    // Is this call done?
    #[tactic(auto, unfolding(crate::specs::Marks::marks))]
    fn is_done(&self, call: usize) -> bool
        ensures { result ≡ marks self.now.done call }
    {
        call < 224 && self.done[call]
    }

    // Is this call not done? Few feeds ask: kept apart, so that the loop over all runs straight.
    #[cold]
    #[inline(never)]
    fn is_waiting(&self, call: usize) -> bool
        ensures { result ≡ not (marks self.now.done call) }
    {
        !self.is_done(call)
    }

    // The lowest kind of the unit's inputs that bar its step: delayed and set, or reactive and not.
    fn lowest_amiss(&self, table: Table, unit: usize) -> Option<u8>
        ensures { result
            ≡ cond (early (shape_of table.entry.bytes.now) (marks self.now.done) unit) (Some 0)
            (cond (unset (shape_of table.entry.bytes.now) (marks self.now.done) unit) (Some 1)
            None) }
    {
        let first = table.unit_count() + table.output_count();
        let sets = &self.done[first..first + table.input_count()];
        table
            .input_owners()
            .iter()
            .zip(table.input_kinds())
            .zip(sets)
            .filter(|((owner, kind), set)| **owner as usize == unit && **set == (**kind == 0))
            .map(|((_, kind), _)| *kind)
            .min()
    }

    // Does pair k feed this output from an input that is not set?
    fn is_unfed(&self, pairs: &[u8], first: usize, output: u8, k: usize) -> bool
        requires pair { 2 * k + 1 < length pairs.now }
        requires first { first ≤ 128 }
        ensures { result
            ≡ (eqb (pair_output pairs.now k) output
            && not (marks self.now.done (first + pair_input pairs.now k))) }
    {
        pairs[2 * k + 1] == output && self.is_waiting(first + pairs[2 * k] as usize)
    }

    // Is some input that feeds this output not set? A turn looks at two pairs, one of either half:
    // the middle one of an odd number is looked at twice.
    fn some_unfed(&self, table: Table, output: usize) -> bool
        requires { output < outputs table.bytes.now }
        ensures { result ≡ unfed (shape_of table.entry.bytes.now) (marks self.now.done) output }
    {
        let first = table.unit_count() + table.output_count();
        let pairs = table.feed_pairs();
        let output = output as u8;
        let count = pairs.len() / 2;
        let half = count / 2;
        (0..count - half).any(|k| {
            self.is_unfed(pairs, first, output, k) || self.is_unfed(pairs, first, output, half + k)
        })
    }

    // The conditions of a unit's step.
    fn step(&self, table: Table, unit: usize) -> Result<(), Refusal>
        ensures { number_of result
            ≡ refusal_of (shape_of table.entry.bytes.now) (marks self.now.done) (Step unit) false }
    {
        match self.lowest_amiss(table, unit) {
            None => Ok(()),
            Some(0) => Err(Refusal::DelayedSet),
            Some(_) => Err(Refusal::ReactiveNotSet),
        }
    }

    // The conditions of an output's get.
    fn get(&self, table: Table, output: usize) -> Result<(), Refusal>
        requires { output < outputs table.bytes.now }
        ensures { number_of result
            ≡ refusal_of (shape_of table.entry.bytes.now) (marks self.now.done) (Get output) false }
    {
        if !self.is_done(table.output_owners()[output] as usize) {
            return Err(Refusal::NotStepped);
        }
        if self.some_unfed(table, output) {
            return Err(Refusal::FeedingNotSet);
        }
        Ok(())
    }

    // The conditions of an input's set.
    fn set(&self, table: Table, input: usize) -> Result<(), Refusal>
        requires { input < inputs table.bytes.now }
        ensures { number_of result
            ≡ refusal_of (shape_of table.entry.bytes.now) (marks self.now.done) (Set input) false }
    {
        if !self.is_done(table.unit_count() + table.input_sources()[input] as usize) {
            return Err(Refusal::SourceNotGot);
        }
        Ok(())
    }

    // The conditions of the call that a number stands for.
    pub(crate) fn allows(&self, table: Table, call: usize) -> Result<(), Refusal>
        ensures { number_of result
            ≡ refusal_at (shape_of table.entry.bytes.now) (marks self.now.done) call }
    {
        match call_at(table, call) {
            Call::NoCall => Err(Refusal::NoCall),
            _ if self.is_done(call) => Err(Refusal::DoneBefore),
            Call::Step(unit) => self.step(table, unit),
            Call::Get(output) => self.get(table, output),
            Call::Set(input) => self.set(table, input),
        }
    }
}

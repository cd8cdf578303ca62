// The calls that wait, and those that wait for none.
ghost use Rattle.std.specs.Prelude.{
  ◌≡◌,
  ◌&&◌,
  ℕ,
  ◌+◌,
  ◌*◌,
  ◌/◌,
  ◌≤◌,
  ◌<◌,
  T,
  eqb,
  ltb,
  get_or,
  replicate,
};
ghost use Rattle.search.specs.Sets.{none};
ghost use Rattle.bits.specs.Bits.{has, empty};
ghost use Rattle.placing.specs.Blocks.{Block};
ghost use Rattle.placing.specs.Lowered.{once};
ghost use Rattle.placing.specs.Lowers.{Lowers};
ghost use Rattle.placing.specs.Row.{Row, row_hits, Gives};

use bits::Bits;

// How many direct predecessors each call waits for, and the calls that wait for none.
#[derive(Drop)]
pub struct Queue {
    pub waiting: [u8; 224],
    pub ready: Bits,
}

impl Queue {
    // Nothing is counted, and no call is ready.
    pub fn new() -> Queue
        ensures waiting { result.waiting ≡ replicate 224 0 }
        ensures ready { result.ready.words ≡ empty }
    {
        Queue {
            waiting: [0u8; 224],
            ready: Bits::new(),
        }
    }

    // The calls of the first `count` that wait for none are ready.
    pub(crate) fn find_ready(&mut self, count: usize)
        requires count_bound { count ≤ 224 }
        requires ready_value { has self.old.ready.words ≡ none }
        ensures waiting { self.new.waiting ≡ self.old.waiting }
        ensures by_index { (c : ℕ) → has self.new.ready.words c
            ≡ (ltb c count && eqb (get_or self.old.waiting c 0) 0) }
    {
        for c in 0..count {
            if self.waiting[c] == 0 {
                self.ready.put(c);
            }
        }
    }

    // One less at a call; ready where it then waits for none.
    pub(crate) fn lower(&mut self, call: usize)
        requires call_bound { call < 224 }
        requires nonzero { 0 < get_or self.old.waiting call 0 }
        ensures { Lowers (once call) self.old self.new }
    {
        let left = self.waiting[call] - 1;
        self.waiting[call] = left;
        if left == 0 {
            self.ready.put(call);
        }
    }

    // One less at the call of each place below `count` that has one, in the blocks of `size` noted.
    pub(crate) fn lower_noted<F: Fn(usize) -> Option<usize>>(
        &mut self,
        count: usize,
        size: usize,
        low: usize,
        notes: u8,
        call_at: F,
    )
        ghost places: { Row }
        requires count_bound { count ≤ 4 * size }
        requires size_bound { size ≤ 32 }
        requires low_bound { low ≤ 4 }
        requires gives { Gives (F.pre call_at) (F.post call_at) places count }
        requires noted { (i : ℕ) → i < count → T (places.passes i) → Block notes (low + i / size) }
        requires enough { (c : ℕ) → row_hits places count c ≤ get_or self.old.waiting c 0 }
        ensures { Lowers (row_hits places count) self.old self.new }
    {
        for block in 0..4 {
            if (notes >> (low + block)) % 2 == 1 {
                for i in (size * block).min(count)..(size * (block + 1)).min(count) {
                    if let Some(call) = call_at(i) {
                        self.lower(call);
                    }
                }
            }
        }
    }
}

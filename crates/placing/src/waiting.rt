// The waiting counts of calls, raised row by row.
ghost use Rattle.std.specs.Prelude.{◌≡◌, ℕ, ◌+◌, ◌≤◌, get_or};
ghost use Rattle.placing.specs.Less.{Less};
ghost use Rattle.placing.specs.Row.{Row, row_hits, Gives};

// One more at the call of each place below `count` that has one.
pub fn raise<F: Fn(usize) -> Option<usize>>(waiting: &mut [u8; 224], count: usize, call_at: F)
    ghost places: { Row }
    requires gives { Gives (F.pre call_at) (F.post call_at) places count }
    requires room { (c : ℕ) → get_or waiting.old c 0 + row_hits places count c ≤ 255 }
    ensures { Less (row_hits places count) waiting.new waiting.old }
{
    for i in 0..count {
        if let Some(call) = call_at(i) {
            waiting[call] += 1;
        }
    }
}

// The backward walk through the calls that remain.
ghost use Rattle.std.specs.Prelude.{◌≡◌, not, ℕ, ◌<◌, T, MatchOption, length};
ghost use Rattle.search.specs.Least.{least_from};
ghost use Rattle.table.specs.Packed.{shape_of};
ghost use Rattle.calls.specs.Precedence.{precedes};
ghost use Rattle.orders.specs.Walk.{among, lowest_left, met};
ghost use Rattle.bits.specs.Bits.{has};
ghost use Rattle.placing.specs.Placing.{call_count, placed_of};
ghost use Rattle.placing.specs.Thread.{chain};
ghost use Rattle.sorter.specs.Lows.{LowSteps, LowGets};

use crate::lows::{Lows, low_gets, low_steps};
use crate::show::place_of;
use bits::Bits;
use placing::Placed;
use table::sound::Table;

// Marks the placed calls and no others, the last first: before each stands its byte's call.
// Stays: one loop for this and `write_back` needs an iterator with its contract, longer than both.
// Stays: answered by value the marks lie in the frame twice.
pub fn mark(bytes: &[u8; 224], placed: Placed, marks: &mut Bits)
    requires { (c : ℕ) → T (among (chain bytes.now placed.count placed.last) c) → c < 224 }
    ensures { has marks.new.words ≡ among (chain bytes.now placed.count placed.last) }
{
    *marks = Bits::new();
    let mut call = placed.last;
    for _ in 0..placed.count {
        marks.put(call as usize);
        call = bytes[call as usize];
    }
}

// The lowest of the first `count` calls that has no mark.
pub fn lowest_left(marks: &Bits, count: usize) -> Option<usize>
    ensures { MatchOption result ((c : ℕ) → c < count → T (has marks.now.words c))
        (λ left. (left < count)
        × (left ≡ least_from (λ c. not (has marks.now.words c)) count 0)) }
{
    (0..count).find(|call| !marks.has(*call))
}

// Marks what was placed, notes what keeps each step and get waiting; gives the lowest call left.
// The marks are gone when it returns: their words then hold what the walk has seen.
pub fn left_over(
    table: Table,
    placed: Placed,
    bytes: &[u8; 224],
    steps: &mut [u8; 32],
    gets: &mut [u8; 96],
) -> usize
    requires early { length (placed_of table.bytes.now) < call_count table.bytes.now }
    requires thread { chain bytes.now placed.count placed.last ≡ placed_of table.bytes.now }
    ensures value { result ≡ lowest_left (call_count table.entry.bytes.now)
        (precedes (shape_of table.entry.bytes.now))
        (among (placed_of table.entry.bytes.now)) }
    ensures low_steps { LowSteps table.entry.bytes.now (among (placed_of table.entry.bytes.now))
        steps.new }
    ensures low_gets { LowGets table.entry.bytes.now (among (placed_of table.entry.bytes.now))
        gets.new }
{
    let mut marks = Bits::new();
    mark(bytes, placed, &mut marks);
    let first = lowest_left(&marks, table.call_count()).unwrap();
    low_steps(table, &marks, steps);
    low_gets(table, &marks, gets);
    first
}

// Walks back to a call where it has been; gives the calls from there on, in precedence order.
// The path is filled from its end, so that it reads forward.
pub fn walk_back<'a>(lows: Lows, first: usize, path: &'a mut [u8; 224]) -> &'a [u8]
    requires { first ≡ lowest_left (call_count lows.table.bytes.now)
        (precedes (shape_of lows.table.bytes.now))
        (among (placed_of lows.table.bytes.now)) }
    ensures { result.now ≡ met (call_count lows.entry.table.bytes.now)
        (precedes (shape_of lows.entry.table.bytes.now))
        (among (placed_of lows.entry.table.bytes.now)) }
{
    let mut seen = Bits::new();
    let mut at = path.len();
    let mut call = first;
    // Stays: the walk ends by its test; a `for` over the places would have to answer past the last.
    while !seen.has(call) {
        at -= 1;
        path[at] = call as u8;
        seen.put(call);
        call = lows.lowest_before(call);
    }
    let trail = &path[at..];
    let end = place_of(trail, call as u8).unwrap();
    &trail[..=end]
}

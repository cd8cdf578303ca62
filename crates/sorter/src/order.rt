// The order of a table's calls where all can be placed; else the cycle of what remains.
ghost use Rattle.std.specs.Prelude.{◌≡◌, ◌≤◌, ◌<◌, length, take};
ghost use Rattle.search.specs.Front.{fronted};
ghost use Rattle.table.specs.Sound.{Sound};
ghost use Rattle.placing.specs.Placing.{call_count, placed_of};
ghost use Rattle.placing.specs.Thread.{chain};
ghost use Rattle.sorter.specs.declared.order.NoOrder.TheVariants.{Unsound};
ghost use Rattle.sorter.specs.NoOrder.{refused, answered};
ghost use Rattle.sorter.specs.Ordering.{shown_of, ordering};
ghost use Rattle.sorter.specs.OrderOrCycle.{OrderOrCycle};

use crate::lows::Lows;
use crate::show::write_turned;
use crate::walk::{left_over, walk_back};
use placing::Placed;
use placing::place::place;
use placing::queue::Queue;
use placing::thread::write_back;
use table::sound::Table;
use table::{Answer, Fault};

// Why there is no order: a table that is not sound, no room, or a cycle of so many calls.
#[derive(Clone, Copy)]
enum NoOrder {
    Unsound(Fault),
    Room,
    Cycle(usize),
}

impl From<Fault> for NoOrder {
    ghost from_gives = { λ fault why. why ≡ Unsound fault };

    fn from(fault: Fault) -> NoOrder {
        NoOrder::Unsound(fault)
    }
}

impl From<NoOrder> for Answer {
    ghost from_gives = { λ why answer. answer ≡ refused why };

    fn from(why: NoOrder) -> Answer
        ensures { result ≡ refused why }
    {
        match why {
            NoOrder::Unsound(fault) => Answer::from(fault),
            NoOrder::Room => Answer {
                number: 8,
                place: 0,
            },
            NoOrder::Cycle(length) => Answer {
                number: 9,
                place: length,
            },
        }
    }
}

// Writes the cycle of what remains at the front of `out`; gives its length.
// `bytes` threads the placed calls; once they are marked it serves as the walk's path.
// Its arrays lie in a frame of their own, where those of `place` lay.
#[inline(never)]
fn show_cycle(table: Table, placed: Placed, bytes: &mut [u8; 224], out: &mut [u8]) -> usize
    requires early { length (placed_of table.bytes.now) < call_count table.bytes.now }
    requires thread { chain bytes.old placed.count placed.last ≡ placed_of table.bytes.now }
    requires room { call_count table.bytes.now ≤ length out.old }
    ensures value { result ≡ length (shown_of table.entry.bytes.now) }
    ensures out_after { out.new ≡ fronted (shown_of table.entry.bytes.now) out.old }
{
    let mut steps = [0u8; 32];
    let mut gets = [0u8; 96];
    let first = left_over(table, placed, bytes, &mut steps, &mut gets);
    let lows = Lows {
        table,
        steps: &steps,
        gets: &gets,
    };
    let cycle = walk_back(lows, first, bytes);
    write_turned(cycle, out);
    cycle.len()
}

// Writes the first order at the front of `out`, and gives its length, or else the cycle.
fn write_order(table: &[u8], out: &mut [u8]) -> Result<usize, NoOrder>
    ensures value { answered result ≡ (ordering table.now (length out.old)).answer }
    ensures out_after { out.new
        ≡ fronted (ordering table.now (length out.old)).bytes
        out.old }
{
    let table = Table::new(table)?;
    let count = table.call_count();
    if out.len() < count {
        return Err(NoOrder::Room);
    }
    let mut queue = Queue::new();
    let placed = place(table, &mut queue);
    if placed.count == count {
        write_back(&queue.waiting, placed, out);
        return Ok(count);
    }
    let length = show_cycle(table, placed, &mut queue.waiting, out);
    Err(NoOrder::Cycle(length))
}

// The first order at the front of `out`, or the cycle, or another refusal, which writes nothing.
pub fn order(table: &[u8], out: &mut [u8]) -> Answer
    ensures value { result ≡ (ordering table.now (length out.old)).answer }
    ensures out_after { out.new
        ≡ fronted (ordering table.now (length out.old)).bytes
        out.old }
    ensures order_or_cycle { Sound table.now → call_count table.now ≤ length out.old
        → OrderOrCycle table.now result (take result.place out.new) }
{
    match write_order(table, out) {
        Ok(count) => Answer {
            number: 0,
            place: count,
        },
        Err(why) => Answer::from(why),
    }
}

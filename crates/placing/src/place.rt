// The order's procedure: at each place the lowest ready call, until none is ready.
ghost use Rattle.std.specs.Prelude.{◌≡◌, not, ℕ, ◌≤◌, ◌<◌, length, get_or};
ghost use Rattle.search.specs.Sets.{none};
ghost use Rattle.search.specs.Front.{fronted};
ghost use Rattle.bits.specs.Bits.{has};
ghost use Rattle.table.specs.Packed.{shape_of};
ghost use Rattle.calls.specs.Given.{into};
ghost use Rattle.placing.specs.Blocks.{Owned, Joined};
ghost use Rattle.placing.specs.Waiting.{Waiting};
ghost use Rattle.placing.specs.Placing.{placed_of, placing};
ghost use Rattle.placing.specs.declared.place.Refusal.TheVariants.{Unsound};
ghost use Rattle.placing.specs.Refusal.{refused, answered};
ghost use Rattle.placing.specs.Thread.{last_of, Standing};

use crate::Placed;
use crate::blocks::note;
use crate::queue::Queue;
use crate::release::Noted;
use crate::thread::write_back;
use crate::waiting::raise;
use table::sound::Table;
use table::{Answer, Fault};

// Why nothing is placed: the table is not sound, or the buffer has under N bytes.
#[derive(Clone, Copy)]
enum Refusal {
    Unsound(Fault),
    Room,
}

impl From<Fault> for Refusal {
    ghost from_gives = { λ fault refusal. refusal ≡ Unsound fault };

    fn from(fault: Fault) -> Refusal {
        Refusal::Unsound(fault)
    }
}

impl From<Refusal> for Answer {
    ghost from_gives = { λ refusal answer. answer ≡ refused refusal };

    fn from(refusal: Refusal) -> Answer
        ensures { result ≡ refused refusal }
    {
        match refusal {
            Refusal::Unsound(fault) => Answer::from(fault),
            Refusal::Room => Answer {
                number: 8,
                place: 0,
            },
        }
    }
}

// How many direct predecessors each call has, counted rule by rule.
fn fill(table: Table, waiting: &mut [u8; 224])
    requires { (c : ℕ) → get_or waiting.old c 0 ≡ 0 }
    ensures { (c : ℕ) → get_or waiting.new c 0
        ≡ into (shape_of table.entry.bytes.now) (λ a. not (none a)) c }
{
    let gets = table.unit_count();
    let outputs = table.output_count();
    let inputs = table.input_count();
    let pairs = table.feed_pairs();
    let kinds = table.input_kinds();
    let owners = table.input_owners();
    raise(waiting, outputs, |y| Some(table.unit_count() + y));
    raise(waiting, inputs, |x| Some(gets + outputs + x));
    raise(waiting, table.feed_count(), |k| {
        Some(gets + pairs[2 * k + 1] as usize)
    });
    raise(waiting, inputs, |x| {
        (kinds[x] == 1).then_some(owners[x] as usize)
    });
    raise(waiting, inputs, |x| {
        (kinds[x] == 0).then_some(gets + outputs + x)
    });
}

// The blocks in which each unit has outputs and inputs.
fn note_owners(table: Table, own: &mut [u8; 32])
    ensures { Owned table.entry.bytes.now own.new }
{
    note(own, table.output_count(), 24, 0, |y| {
        table.output_owners()[y] as usize
    });
    note(own, table.input_count(), 24, 4, |x| {
        table.input_owners()[x] as usize
    });
}

// The blocks in which each input has feeds, and in which each output is a source.
fn note_joins(table: Table, mask: &mut [u8; 96])
    ensures { Joined table.entry.bytes.now mask.new }
{
    note(mask, table.feed_count(), 32, 0, |k| {
        table.feed_pairs()[2 * k] as usize
    });
    note(mask, table.input_count(), 24, 4, |x| {
        table.input_sources()[x] as usize
    });
}

// Places the lowest ready call and what it makes ready, until none is.
fn place_ready(noted: Noted, queue: &mut Queue) -> Placed
    requires { Waiting (shape_of noted.table.bytes.now) none queue.old.waiting
        queue.old.ready.words }
    ensures count_value { result.count ≡ length (placed_of noted.entry.table.bytes.now) }
    ensures last_value { result.last ≡ last_of 255 (placed_of noted.entry.table.bytes.now) }
    ensures standing { Standing noted.entry.table.bytes.now queue.new.waiting }
    ensures none_ready { has queue.new.ready.words ≡ none }
{
    let calls = noted.table.call_count();
    let mut last: u8 = 255;
    for count in 0..calls {
        let Some(call) = queue.ready.lowest() else {
            return Placed { count, last };
        };
        queue.ready.take_out(call);
        queue.waiting[call] = last;
        last = call as u8;
        noted.release(call, queue);
    }
    Placed { count: calls, last }
}

// Places all that can be placed; each placed call's byte then names the call placed before it.
// Its arrays lie in a frame of their own, which is gone when a cycle is looked for.
#[inline(never)]
pub fn place(table: Table, queue: &mut Queue) -> Placed
    ensures count_value { result.count ≡ length (placed_of table.entry.bytes.now) }
    ensures last_value { result.last ≡ last_of 255 (placed_of table.entry.bytes.now) }
    ensures standing { Standing table.entry.bytes.now queue.new.waiting }
    ensures none_ready { has queue.new.ready.words ≡ none }
{
    let mut own: [u8; 32] = [0; 32];
    let mut mask: [u8; 96] = [0; 96];
    *queue = Queue::new();
    fill(table, &mut queue.waiting);
    queue.find_ready(table.unit_count());
    note_owners(table, &mut own);
    note_joins(table, &mut mask);
    let noted = Noted {
        table,
        own: &own,
        mask: &mask,
    };
    place_ready(noted, queue)
}

// Places all that can be placed at the front of `calls`, and gives how many.
fn place_into(table: &[u8], calls: &mut [u8]) -> Result<usize, Refusal>
    ensures value { answered result ≡ (placing table.now (length calls.old)).answer }
    ensures calls_after { calls.new
        ≡ fronted (placing table.now (length calls.old)).bytes
        calls.old }
{
    let table = Table::new(table)?;
    if calls.len() < table.call_count() {
        return Err(Refusal::Room);
    }
    let mut queue = Queue::new();
    let placed = place(table, &mut queue);
    write_back(&queue.waiting, placed, calls);
    Ok(placed.count)
}

// Places all that can be placed: 1 to 7, 8 where `calls` is under N bytes, or 0 with how many.
pub fn place_all(table: &[u8], calls: &mut [u8]) -> Answer
    ensures value { result ≡ (placing table.now (length calls.old)).answer }
    ensures calls_after { calls.new
        ≡ fronted (placing table.now (length calls.old)).bytes
        calls.old }
{
    match place_into(table, calls) {
        Ok(place) => Answer { number: 0, place },
        Err(refusal) => Answer::from(refusal),
    }
}

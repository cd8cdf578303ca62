// What the firmware calls from C: SPECIFICATION, For C. The crate `firmware_c` exports it.
#![tactic(auto)]

ghost use Rattle.std.specs.Prelude.{◌≡◌, ◌≤◌, length};
ghost use Rattle.table.specs.Check.{checked};
ghost use Rattle.table.specs.Packed.{shape_of};
ghost use Rattle.judge.specs.Records.{all_numbered};
ghost use Rattle.judging.specs.Verdict.{verdict_of};
ghost use Rattle.search.specs.Front.{fronted};
ghost use Rattle.sorter.specs.Ordering.{ordering};
ghost use Rattle.firmware.specs.Code.{coded};

use judge::records::Record;
use table::Answer;

// 256 times the number plus the place, which is at most 224.
// Stays: C gets the two in one word, and Rust takes no `From` between types of other crates.
#[tactic(auto, unfolding(crate::specs::Code::coded))]
fn code(answer: Answer) -> u32
    requires { answer.place ≤ 224 }
    ensures { result ≡ coded answer }
{
    256 * (answer.number as u32) + (answer.place as u32)
}

// Is the table sound?
#[unsafe(no_mangle)]
pub extern "C" fn oorlichday_check(table: &[u8]) -> u32
    ensures { result ≡ coded (checked table.now) }
{
    code(table::check::check(table))
}

// The first order of the table's calls, or a cycle of them.
#[unsafe(no_mangle)]
pub extern "C" fn oorlichday_order(table: &[u8], order: &mut [u8]) -> u32
    ensures value { result ≡ coded (ordering table.now (length order.old)).answer }
    ensures order_after { order.new
        ≡ fronted (ordering table.now (length order.old)).bytes
        order.old }
{
    code(sorter::order::order(table, order))
}

// Does the given order keep the rules?
#[unsafe(no_mangle)]
pub extern "C" fn oorlichday_verdict(table: &[u8], order: &[u8]) -> u32
    ensures { result ≡ coded (verdict_of table.now order.now) }
{
    code(judge::verdict(table, order))
}

// Does the firmware's own schedule, a list of records, keep the rules?
#[unsafe(no_mangle)]
pub extern "C" fn oorlichday_verdict_of_records(table: &[u8], records: &[Record]) -> u32
    ensures { result
        ≡ coded
        (verdict_of
        table.now
        (all_numbered (shape_of table.now) records.now)) }
{
    code(judge::records::verdict_of_records(table, records))
}

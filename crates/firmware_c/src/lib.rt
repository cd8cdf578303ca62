// The archive of the box: each function of `firmware` under its own name as a symbol of C.
#![tactic(auto)]

ghost use Rattle.std.specs.Prelude.{◌≡◌, length};
ghost use Rattle.table.specs.Check.{checked};
ghost use Rattle.table.specs.Packed.{shape_of};
ghost use Rattle.judge.specs.Records.{all_numbered};
ghost use Rattle.judging.specs.Verdict.{verdict_of};
ghost use Rattle.search.specs.Front.{fronted};
ghost use Rattle.sorter.specs.Ordering.{ordering};
ghost use Rattle.firmware.specs.Code.{coded};

use judge::records::Record;

// Is the table sound?
#[unsafe(no_mangle)]
pub extern "C" fn oorlichday_check(table: &[u8]) -> u32
    ensures { result ≡ coded (checked table.now) }
{
    firmware::oorlichday_check(table)
}

// The first order of the table's calls, or a cycle of them.
#[unsafe(no_mangle)]
pub extern "C" fn oorlichday_order(table: &[u8], order: &mut [u8]) -> u32
    ensures value { result ≡ coded (ordering table.now (length order.old)).answer }
    ensures order_after { order.new
        ≡ fronted (ordering table.now (length order.old)).bytes
        order.old }
{
    firmware::oorlichday_order(table, order)
}

// Does the given order keep the rules?
#[unsafe(no_mangle)]
pub extern "C" fn oorlichday_verdict(table: &[u8], order: &[u8]) -> u32
    ensures { result ≡ coded (verdict_of table.now order.now) }
{
    firmware::oorlichday_verdict(table, order)
}

// Does the firmware's own schedule, a list of records, keep the rules?
#[unsafe(no_mangle)]
pub extern "C" fn oorlichday_verdict_of_records(table: &[u8], records: &[Record]) -> u32
    ensures { result
        ≡ coded
        (verdict_of
        table.now
        (all_numbered (shape_of table.now) records.now)) }
{
    firmware::oorlichday_verdict_of_records(table, records)
}

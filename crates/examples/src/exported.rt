// What C calls on packed tables: for the box 256 times the number plus the place.
use crate::shown::Bytes;
use crate::tables::{A, c_fed};
use desk::{oorlichday_precedes, oorlichday_take};
use firmware::{oorlichday_check, oorlichday_order, oorlichday_verdict};
use judge::Run;
use std::io;

fn check_of(rt: &impl Print, name: &str, table: &[u8]) -> io::Result<()> {
    println!(rt;
        "oorlichday_check of {name} gives {}",
        oorlichday_check(table)
    )
}

fn order_of(rt: &impl Print, name: &str, table: &[u8]) -> io::Result<()> {
    let mut buffer = [99u8; 8];
    let code = oorlichday_order(table, &mut buffer);
    println!(rt;
        "oorlichday_order of {name} gives {code} and leaves{}",
        Bytes(&buffer)
    )
}

fn verdict_on(rt: &impl Print, name: &str, table: &[u8], order: &[u8]) -> io::Result<()> {
    let code = oorlichday_verdict(table, order);
    println!(rt; "oorlichday_verdict on {name}{} gives {code}", Bytes(order))
}

// The number that a desk's run answers, and the run after it.
fn take(rt: &impl Print, name: &str, run: Run, call: usize) -> io::Result<Run> {
    let taken = oorlichday_take(&A, run, call);
    println!(rt; "oorlichday_take of {name} gives {}", taken.number)?;
    Ok(taken.run)
}

// 1 where the first call of A precedes the second.
fn precedes(rt: &impl Print, name: &str, first: usize, second: usize) -> io::Result<()> {
    let first_before = oorlichday_precedes(&A, first, second);
    println!(rt;
        "oorlichday_precedes of {name} gives {}",
        u8::from(first_before)
    )
}

pub fn all(rt: &impl Print) -> io::Result<()> {
    check_of(rt, "A", &A)?;
    check_of(rt, "U 33", &[33u8, 0, 0, 0])?;
    order_of(rt, "A", &A)?;
    order_of(rt, "C, feeds (0,0) (1,1)", &c_fed(0, 0, 1, 1))?;
    verdict_on(rt, "A:", &A, &[0u8, 2, 5, 1, 3, 4])?;
    verdict_on(rt, "A:", &A, &[0u8, 1])?;
    let stepped = take(rt, "A: 0", Run::new(), 0)?;
    take(rt, "A: 0, then 2", stepped, 2)?;
    take(rt, "A: 2", Run::new(), 2)?;
    precedes(rt, "A: 0 2", 0, 2)?;
    precedes(rt, "A: 2 0", 2, 0)
}

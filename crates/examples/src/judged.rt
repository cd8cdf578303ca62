// Orders judged.
use crate::shown::{Bytes, Given};
use crate::tables::{A, ALONE, C, G, a_with};
use judge::verdict;
use std::io;
use table::parts::stretch;

// A table's name, the order's calls, and the verdict.
fn judged(rt: &impl Print, name: &str, table: &[u8], order: &[u8]) -> io::Result<()> {
    println!(rt;
        "verdict on {name}:{} {}",
        Bytes(order),
        Given::from(verdict(table, order))
    )
}

fn passed(rt: &impl Print) -> io::Result<()> {
    judged(rt, "A", &A, &[0u8, 2, 5, 1, 3, 4])?;
    judged(rt, "C", &C, &[1u8, 0, 3, 4, 2, 5])?;
    judged(rt, "G", &G, &[0u8, 1, 2, 5, 3, 4])?;
    judged(rt, "one unit", &ALONE, &[0u8])
}

// Refusals of SPECIFICATION, Examples.
fn refused(rt: &impl Print) -> io::Result<()> {
    judged(rt, "A", &A, &[6u8])?;
    judged(rt, "A", &A, &[0u8, 2, 2])?;
    judged(rt, "C", &C, &[0u8, 2, 5, 1])?;
    judged(rt, "A", &A, &[0u8, 1])?;
    judged(rt, "A", &A, &[0u8, 3])?;
    judged(rt, "G", &G, &[0u8, 1, 3])?;
    judged(rt, "A", &A, &[0u8, 2, 4])?;
    judged(rt, "A", &A, &[0u8, 2, 5, 1, 3])?;
    judged(rt, "A, no calls", &A, stretch(&A, 0, 0))
}

// Longer than N; a delayed input set early whose unit never steps; a table that is not sound.
fn others(rt: &impl Print) -> io::Result<()> {
    judged(rt, "A", &A, &[0u8, 2, 5, 1, 3, 4, 0])?;
    judged(rt, "A", &A, &[0u8, 2, 5, 1, 3, 4, 6])?;
    judged(rt, "C", &C, &[0u8, 2, 5])?;
    judged(rt, "A, input 0 of kind 2", &a_with(8, 2), &[6u8])?;
    judged(
        rt,
        "A, input 0 of kind 2, no calls",
        &a_with(8, 2),
        stretch(&A, 0, 0),
    )
}

pub fn all(rt: &impl Print) -> io::Result<()> {
    passed(rt)?;
    refused(rt)?;
    others(rt)
}

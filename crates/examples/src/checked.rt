// Tables checked: each number from 1 to 7 where a check first fails, and what is just taken.
use crate::shown::Given;
use crate::tables::{A, a_with, c_fed, greatest};
use std::io;
use table::check::check;
use table::parts::stretch;

fn check_of(rt: &impl Print, name: &str, table: &[u8]) -> io::Result<()> {
    println!(rt; "check of {name} {}", Given::from(check(table)))
}

// 1 and 2: the counts, and a length that they do not ask.
fn counts(rt: &impl Print) -> io::Result<()> {
    check_of(rt, "no bytes", stretch(&A, 0, 0))?;
    check_of(rt, "U 33, under 4 bytes", &[33u8, 0, 0])?;
    check_of(rt, "U 33", &[33u8, 0, 0, 0])?;
    check_of(rt, "U 33, a byte too long", &[33u8, 0, 0, 0, 0])?;
    check_of(rt, "U 32", &[32u8, 0, 0, 0])?;
    check_of(rt, "U 0", &[0u8, 0, 0, 0])?;
    check_of(rt, "X 97", &[1u8, 0, 97, 0])?;
    check_of(rt, "F 129", &[1u8, 0, 0, 129])
}

// The greatest counts, and one output more.
fn greatest_counts(rt: &impl Print) -> io::Result<()> {
    let most = greatest();
    check_of(rt, "the greatest table", &most)?;
    check_of(rt, "it, a byte cut", stretch(&most, 0, 643))?;
    let mut outputs = [0u8; 101];
    outputs[0] = 1;
    outputs[1] = 97;
    check_of(rt, "Y 97", &outputs)
}

// 3 to 5: owners, kinds, sources.
fn ports(rt: &impl Print) -> io::Result<()> {
    check_of(rt, "A", &A)?;
    check_of(rt, "A, output 0 of unit 2", &a_with(4, 2))?;
    check_of(rt, "two units, an output of unit 1", &[2u8, 1, 0, 0, 1])?;
    check_of(rt, "A, input 1 of unit 2", &a_with(7, 2))?;
    check_of(rt, "A, input 0 of kind 2", &a_with(8, 2))?;
    check_of(rt, "A, input 1 from output 2", &a_with(11, 2))?;
    check_of(rt, "an input and no output", &[1u8, 0, 1, 0, 0, 0, 0])
}

// 6 and 7: the feeds, pair by pair.
fn feeds(rt: &impl Print) -> io::Result<()> {
    check_of(rt, "a feed and no input", &[1u8, 0, 0, 1, 0, 0])?;
    check_of(rt, "C, feeds (0,0) (1,1)", &c_fed(0, 0, 1, 1))?;
    check_of(rt, "C, feeds (0,0) (2,1)", &c_fed(0, 0, 2, 1))?;
    check_of(rt, "C, feeds (0,0) (1,2)", &c_fed(0, 0, 1, 2))?;
    check_of(rt, "C, feeds (0,0) (0,1)", &c_fed(0, 0, 0, 1))?;
    check_of(rt, "C, feeds (1,1) (1,1)", &c_fed(1, 1, 1, 1))?;
    check_of(
        rt,
        "C, feeds (1,1) (1,1) (0,1)",
        &[2u8, 2, 2, 3, 0, 1, 0, 1, 0, 0, 1, 0, 1, 1, 1, 1, 0, 1],
    )?;
    check_of(
        rt,
        "an input that feeds two outputs",
        &[1u8, 2, 1, 2, 0, 0, 0, 0, 0, 0, 0, 0, 1],
    )
}

pub fn all(rt: &impl Print) -> io::Result<()> {
    counts(rt)?;
    greatest_counts(rt)?;
    ports(rt)?;
    feeds(rt)
}

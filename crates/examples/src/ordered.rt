// Orders and cycles, and what can be placed. Each buffer is lent full of 99, and printed whole.
ghost use Rattle.std.specs.Prelude.{◌<◌};

use crate::shown::{Bytes, Given};
use crate::tables::{
    A, A_REACTIVE, ALONE, BEHIND, BESIDE, C, G, SECOND_FED, a_with, c_fed, itself,
};
use placing::place::place_all;
use sorter::order::order;
use std::io;

// The order or the cycle, in a buffer of N bytes.
fn order_in<const N: usize>(rt: &impl Print, name: &str, table: &[u8]) -> io::Result<()>
    requires { N < 10 }
{
    let mut buffer = [99u8; N];
    let given = Given::from(order(table, &mut buffer));
    println!(rt; "order of {name} {given} and leaves{}", Bytes(&buffer))
}

// The same with more room than it takes.
fn order_of(rt: &impl Print, name: &str, table: &[u8]) -> io::Result<()> {
    order_in::<9>(rt, name, table)
}

// All calls that can be placed, in a buffer of N bytes.
fn placed_in<const N: usize>(rt: &impl Print, name: &str, table: &[u8]) -> io::Result<()>
    requires { N < 10 }
{
    let mut buffer = [99u8; N];
    let given = Given::from(place_all(table, &mut buffer));
    println!(rt; "place_all of {name} {given} and leaves{}", Bytes(&buffer))
}

// Those of SPECIFICATION, Examples.
fn document(rt: &impl Print) -> io::Result<()> {
    order_of(rt, "A", &A)?;
    order_of(rt, "A, both reactive", &A_REACTIVE)?;
    order_of(rt, "C", &C)?;
    order_of(rt, "C, feeds (0,0) (1,1)", &c_fed(0, 0, 1, 1))?;
    order_of(rt, "G", &G)?;
    order_of(rt, "one unit", &ALONE)?;
    order_of(rt, "a unit joined to itself, delayed", &itself(0))?;
    order_of(rt, "a unit joined to itself, reactive", &itself(1))?;
    order_in::<5>(rt, "A in five bytes", &A)
}

// Those of its readings, and others.
fn others(rt: &impl Print) -> io::Result<()> {
    order_of(rt, "a call that waits behind a cycle", &BEHIND)?;
    order_of(rt, "calls beside a cycle", &BESIDE)?;
    order_of(rt, "a second output fed", &SECOND_FED)?;
    order_of(rt, "A, input 0 of kind 2", &a_with(8, 2))?;
    order_in::<5>(rt, "a cycle of four in five bytes", &c_fed(0, 0, 1, 1))
}

fn placed(rt: &impl Print) -> io::Result<()> {
    placed_in::<8>(rt, "A", &A)?;
    placed_in::<8>(rt, "G", &G)?;
    placed_in::<8>(rt, "calls beside a cycle", &BESIDE)?;
    placed_in::<8>(rt, "A, input 0 of kind 2", &a_with(8, 2))?;
    placed_in::<5>(rt, "A in five bytes", &A)
}

pub fn all(rt: &impl Print) -> io::Result<()> {
    document(rt)?;
    others(rt)?;
    placed(rt)
}

// Which call is a direct predecessor of which.
use crate::tables::{A, C, G, SECOND_FED, itself};
use calls::precedence::precedes;
use std::{fmt, io};

// The pairs of numbers below 8, which is above each N here, of which the first precedes the second.
#[derive(Clone, Copy)]
struct Pairs<'a>(&'a [u8]);

impl fmt::Display for Pairs<'_> {
    fn fmt<W: fmt::Write>(&self, f: &mut fmt::Formatter<W>) -> fmt::Result {
        for first in 0..8 {
            for second in 0..8 {
                if precedes(self.0, first, second) {
                    write!(f, " {first}-{second}")?;
                }
            }
        }
        Ok(())
    }
}

fn pairs_of(rt: &impl Print, name: &str, table: &[u8]) -> io::Result<()> {
    println!(rt; "precedence of {name}:{}", Pairs(table))
}

pub fn all(rt: &impl Print) -> io::Result<()> {
    pairs_of(rt, "A", &A)?;
    pairs_of(rt, "C", &C)?;
    pairs_of(rt, "G", &G)?;
    pairs_of(rt, "a unit joined to itself, delayed", &itself(0))?;
    pairs_of(rt, "a unit joined to itself, reactive", &itself(1))?;
    pairs_of(rt, "a second output fed", &SECOND_FED)
}

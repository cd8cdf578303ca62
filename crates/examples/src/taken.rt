// Judged runs, call by call: the number of each answer, and the calls that are done after it.
use crate::tables::{A, BOTH_KINDS, a_with};
use judge::Run;
use std::{fmt, io};

// All call numbers that are marked, a space before each.
#[derive(Clone, Copy)]
struct Done<'a>(&'a [bool; 224]);

impl fmt::Display for Done<'_> {
    fn fmt<W: fmt::Write>(&self, f: &mut fmt::Formatter<W>) -> fmt::Result {
        for (call, done) in self.0.iter().enumerate() {
            if *done {
                write!(f, " {call}")?;
            }
        }
        Ok(())
    }
}

// Takes one call, prints it, and hands the next run on.
fn take(rt: &impl Print, name: &str, run: Run, table: &[u8], call: usize) -> io::Result<Run> {
    let taken = run.take(table, call);
    let next = taken.run;
    println!(rt;
        "{name}: taking {call} gives {}, done{}",
        taken.number,
        Done(&next.done)
    )?;
    Ok(next)
}

// The run in which these two calls are done.
fn with_done(first: usize, second: usize) -> Run {
    let mut done = [false; 224];
    if first < 224 {
        done[first] = true;
    }
    if second < 224 {
        done[second] = true;
    }
    Run { done: done }
}

// A's order, with refused calls between.
fn in_turn(rt: &impl Print) -> io::Result<()> {
    let mut run = take(rt, "A", Run::new(), &A, 1)?;
    run = take(rt, "A", run, &A, 0)?;
    run = take(rt, "A", run, &A, 0)?;
    run = take(rt, "A", run, &A, 2)?;
    run = take(rt, "A", run, &A, 4)?;
    run = take(rt, "A", run, &A, 5)?;
    run = take(rt, "A", run, &A, 3)?;
    run = take(rt, "A", run, &A, 1)?;
    run = take(rt, "A", run, &A, 3)?;
    run = take(rt, "A", run, &A, 4)?;
    take(rt, "A", run, &A, 6)?;
    Ok(())
}

// States that no order leads to, marks at N and above, a number above a byte, an unsound table.
fn any_state(rt: &impl Print) -> io::Result<()> {
    take(rt, "A, 4 done", with_done(4, 4), &A, 0)?;
    take(
        rt,
        "a delayed input set, a reactive one not",
        with_done(2, 2),
        &BOTH_KINDS,
        0,
    )?;
    take(rt, "A, 6 and 200 done", with_done(6, 200), &A, 6)?;
    take(rt, "A, 6 and 200 done", with_done(6, 200), &A, 0)?;
    take(rt, "A", Run::new(), &A, 256)?;
    take(rt, "A, input 0 of kind 2", Run::new(), &a_with(8, 2), 0)?;
    Ok(())
}

pub fn all(rt: &impl Print) -> io::Result<()> {
    in_turn(rt)?;
    any_state(rt)
}

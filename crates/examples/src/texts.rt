// What C calls on texts: table A's, refused ones, and buffers that are too small.
use crate::shown::{Bytes, Given};
use desk::{oorlichday_list, oorlichday_read};
use std::io;

// Table A's.
const A_TEXT: &[u8] = b"cosim\t1\n\
unit\tpump\n\
unit\ttank\n\
out\tpump\tflow\n\
out\ttank\tlevel\n\
in\tpump\tlevel\tdelayed\n\
in\ttank\tflow\treactive\n\
join\tpump\tflow\ttank\tflow\n\
join\ttank\tlevel\tpump\tlevel\n";

// A unit declared twice.
const TWICE: &[u8] = b"cosim\t1\nunit\tpump\nunit\tpump\n";

// A text read into a buffer of 14 bytes, lent full of 99.
fn read(rt: &impl Print, name: &str, text: &[u8]) -> io::Result<()> {
    let mut buffer = [99u8; 14];
    let given = Given::from(oorlichday_read(text, &mut buffer));
    println!(rt;
        "oorlichday_read of {name} {given} and leaves{}",
        Bytes(&buffer)
    )
}

// What is listed of a text in a buffer of 104 bytes, lent full of dots.
fn list(rt: &impl Print, name: &str, text: &[u8]) -> io::Result<()> {
    let mut buffer = [46u8; 104];
    let given = Given::from(oorlichday_list(text, &mut buffer));
    println!(rt; "oorlichday_list of {name} {given}")?;
    rt.write_all(&buffer)?;
    rt.write_all(b"\n")
}

// The same with buffers of 11 bytes.
fn in_eleven(rt: &impl Print, name: &str, text: &[u8]) -> io::Result<()> {
    let mut table = [99u8; 11];
    let read = Given::from(oorlichday_read(text, &mut table));
    println!(rt;
        "oorlichday_read in 11 bytes of {name} {read} and leaves{}",
        Bytes(&table)
    )?;
    let mut listing = [99u8; 11];
    let listed = Given::from(oorlichday_list(text, &mut listing));
    println!(rt;
        "oorlichday_list in 11 bytes of {name} {listed} and leaves{}",
        Bytes(&listing)
    )
}

pub fn all(rt: &impl Print) -> io::Result<()> {
    read(rt, "table A's text", A_TEXT)?;
    list(rt, "table A's text", A_TEXT)?;
    in_eleven(rt, "table A's text", A_TEXT)?;
    read(rt, "a unit twice", TWICE)?;
    list(rt, "a unit twice", TWICE)?;
    let mut lines = [10u8; 300];
    lines[299] = 97;
    read(rt, "300 lines, the last not ended", &lines)
}

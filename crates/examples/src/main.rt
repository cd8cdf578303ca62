// Runs the examples of SPECIFICATION, Examples, and some like them, and prints what each gives.
#![tactic(auto)]

mod checked;
mod exported;
mod judged;
mod ordered;
mod preceding;
mod records;
mod shown;
mod tables;
mod taken;
mod texts;

use std::io;

fn main(rt: HostRuntime) -> io::Result<()> {
    checked::all(&rt)?;
    preceding::all(&rt)?;
    ordered::all(&rt)?;
    judged::all(&rt)?;
    records::all(&rt)?;
    taken::all(&rt)?;
    exported::all(&rt)?;
    texts::all(&rt)
}

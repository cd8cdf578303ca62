// Prints the order of the text table on standard input, or its cycle, or its refusal.
#![tactic(auto)]

ghost use Rattle.std.specs.Prelude.{◌≡◌, ◌≤◌, true, length, IfOk};

use listing::list;
use std::io::{self, Read};

// How many bytes a listing has at most (`listing-most` of the crate `listing`).
const LISTING_MAX: usize = 8860;

// Reads the input to its end, or until the room is full; answers how many bytes.
fn read_input<R: Read>(input: &mut R, room: &mut [u8]) -> io::Result<usize>
    ensures { IfOk result (λ n. n ≤ length room.old) }
{
    let mut n = 0;
    while n < room.len() {
        let more = input.read(&mut room[n..])?;
        if more == 0 {
            break;
        }
        n += more;
    }
    Ok(n)
}

// Prints the listing of a text, and answers whether there was room for it: there always is.
// A write that fails is told nowhere: SPECIFICATION, Lister 5.
fn print(rt: &impl Print, text: &[u8]) -> bool
    ensures { result ≡ true }
{
    let mut out = [0u8; LISTING_MAX];
    let answer = list(text, &mut out);
    if answer.number != 0 {
        return false;
    }
    let end = answer.place;
    let _ = rt.write_all(&out[..end]);
    true
}

// The room for the text is one byte over the limit, so that more than the limit is seen.
fn main(rt: HostRuntime) {
    let mut text = [0u8; 24577];
    let Ok(n) = read_input(&mut rt.stdin(), &mut text) else {
        let _ = rt.eprintln("lister: standard input cannot be read");
        return;
    };
    if !print(&rt, &text[..n]) {
        let _ = rt.eprintln("lister: no room for the listing");
    }
}

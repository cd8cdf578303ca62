// The lines that open with a keyword: where they begin in the text.
#![tactic(auto)]

ghost use Rattle.std.specs.Prelude.{◌≡◌, ◌+◌, ◌<◌, ◌≤◌, length};
ghost use Rattle.grammar.specs.Rows.{row_at};
ghost use Rattle.fields.specs.Spans.{fields_at};
ghost use Rattle.declarations.specs.Noted.{opens as opens_with, Noted};
ghost use Rattle.declarations.specs.Turn.{Turn};

use fields::{Fields, fields_at, same};

// Does the line at place a, with these fields, open with the keyword?
fn opens(text: &[u8], keyword: &[u8], a: usize, fields: Fields) -> bool
    requires { (fields ≡ fields_at text.now a) × (length text.now ≤ 65535) }
    ensures { result ≡ opens_with keyword.now (row_at text.now a) }
{
    let from = fields.from[0] as usize;
    let to = fields.to[0] as usize;
    same(&text[from..to], keyword)
}

// Notes place a, behind the n noted so far, if its line opens with the keyword.
fn note(
    text: &[u8],
    keyword: &[u8],
    a: usize,
    fields: Fields,
    places: &mut [u16],
    n: usize,
) -> usize
    requires { (fields ≡ fields_at text.now a) × (0 < fields.count)
        × (n < length places.old) }
    ensures { Turn keyword.now text.now a n
        places.old places.new result }
{
    if !opens(text, keyword, a, fields) {
        return n;
    }
    places[n] = a as u16;
    n + 1
}

// Notes where the lines that open with the keyword begin, as many as fit, and answers how many.
pub fn note_lines(text: &[u8], keyword: &[u8], places: &mut [u16]) -> usize
    ensures { Noted keyword.now text.now
        places.old places.new result }
{
    let mut a = 0;
    let mut n = 0;
    while n < places.len() {
        let fields = fields_at(text, a);
        if fields.count == 0 {
            return n;
        }
        n = note(text, keyword, a, fields, places, n);
        a = fields.next as usize;
    }
    n
}

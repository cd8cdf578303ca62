// What is checked over the whole text, and its first line.
ghost use Rattle.std.specs.Prelude.{◌≡◌};
ghost use Rattle.grammar.specs.Rows.{row_at};
ghost use Rattle.grammar.specs.Reading.{version as version_of};
ghost use Rattle.lines.specs.Took.{Told};
ghost use Rattle.text.specs.Walked.{Whole};

use crate::{Answer, wide};
use fields::Fields;

// 20, 21 or 22 with its line, or 0.
pub fn check(text: &[u8]) -> Answer
    ensures { Whole text.now result }
{
    let size = text.len();
    if size == 0 {
        return Answer {
            number: 20,
            place: 0,
        };
    }
    if 24576 < size {
        return Answer {
            number: 20,
            place: 0,
        };
    }
    if text[size - 1] != b'\n' {
        return Answer {
            number: 21,
            place: scan::line_ends(text) + 1,
        };
    }
    let bad = scan::first_bad(text);
    if bad < size {
        return Answer {
            number: 22,
            place: scan::line_ends(&text[..bad]) + 1,
        };
    }
    Answer {
        number: 0,
        place: 0,
    }
}

// 1 where the first line is exactly `cosim`, `1`, else 0.
pub fn version(text: &[u8], fields: Fields) -> u8
    requires { Told text.now 0 fields }
    ensures { result ≡ version_of (row_at text.now 0) }
{
    if fields.count != 2 {
        return 0;
    }
    let b = wide(fields.from[0]);
    let e = wide(fields.to[0]);
    if !fields::same(&text[b..e], b"cosim") {
        return 0;
    }
    let c = wide(fields.from[1]);
    let f = wide(fields.to[1]);
    if !fields::same(&text[c..f], b"1") {
        return 0;
    }
    1
}

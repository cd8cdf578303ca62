// What an example gives, as it is printed.
use desk::Reading;
use std::fmt;
use table::Answer;

// The number and the place of an answer.
#[derive(Clone, Copy)]
pub struct Given {
    number: u8,
    place: usize,
}

impl From<Answer> for Given {
    fn from(answer: Answer) -> Given {
        Given {
            number: answer.number,
            place: answer.place,
        }
    }
}

impl From<Reading> for Given {
    fn from(reading: Reading) -> Given {
        Given {
            number: reading.number,
            place: reading.place,
        }
    }
}

impl fmt::Display for Given {
    fn fmt<W: fmt::Write>(&self, f: &mut fmt::Formatter<W>) -> fmt::Result {
        write!(f, "gives {} at {}", self.number, self.place)
    }
}

// Bytes as numbers, a space before each.
#[derive(Clone, Copy)]
pub struct Bytes<'a>(pub &'a [u8]);

impl fmt::Display for Bytes<'_> {
    fn fmt<W: fmt::Write>(&self, f: &mut fmt::Formatter<W>) -> fmt::Result {
        for byte in self.0 {
            write!(f, " {byte}")?;
        }
        Ok(())
    }
}

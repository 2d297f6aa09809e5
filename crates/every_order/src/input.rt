// From bytes to books and counts.
use crate::compare;
use crate::day::Day;
use crate::tally::Tally;
use std::io;
use std::io::Write;

// What the last byte was of.
#[derive(Clone, Copy)]
enum Part {
    Nothing,
    Number,
    Text,
    Comment,
}

// The number that is read, the day of the line, the counts so far, and how many of them are printed.
#[derive(Clone, Copy)]
pub struct Input {
    part: Part,
    value: u32,
    day: Day,
    tally: Tally,
    printed: usize,
}

impl Input {
    // With nothing counted yet of books with so many opening minutes.
    pub fn new(opening: u32) -> Input {
        Input {
            part: Part::Nothing,
            value: 0,
            day: Day::new(opening),
            tally: Tally::new(),
            printed: 0,
        }
    }

    // A byte.
    pub fn read(&mut self, out: &mut impl Write, byte: u8) -> io::Result<()> {
        match self.part {
            Part::Text => self.text(out, byte),
            Part::Comment => {
                self.comment(byte);
                Ok(())
            }
            Part::Nothing | Part::Number => self.sign(out, byte),
        }
    }

    // A byte of a text; at its end the next count.
    fn text(&mut self, out: &mut impl Write, byte: u8) -> io::Result<()> {
        if byte != b'"' {
            return out.write_all(&[byte]);
        }
        let count = self.tally.at(self.printed);
        writeln!(out, "{count}")?;
        self.part = Part::Nothing;
        self.printed = self.printed.saturating_add(1);
        Ok(())
    }

    // A byte of a comment, up to the end of the line.
    fn comment(&mut self, byte: u8) {
        if byte == b'\n' {
            self.part = Part::Nothing;
        }
    }

    // A byte outside texts and comments.
    fn sign(&mut self, out: &mut impl Write, byte: u8) -> io::Result<()> {
        match byte {
            b'0'..=b'9' => {
                let digit = u32::from(byte - b'0');
                self.value = self.value.wrapping_mul(10).wrapping_add(digit);
                self.part = Part::Number;
            }
            b'"' => self.part = Part::Text,
            b'#' => self.part = Part::Comment,
            _ => {
                self.end_number();
                if byte == b'\n' {
                    return self.end_line(out);
                }
            }
        }
        Ok(())
    }

    // The end of a number, where there was one.
    fn end_number(&mut self) {
        if let Part::Number = self.part {
            self.day.add(self.value);
            self.value = 0;
            self.part = Part::Nothing;
        }
    }

    // The end of a line: its book, or the opening minutes, where it has either.
    fn end_line(&mut self, out: &mut impl Write) -> io::Result<()> {
        match self.day.read {
            0 => {}
            1 => *self = Input::new(self.day.last[2]),
            _ => {
                compare::whole_day(out, &mut self.tally, self.day)?;
                self.day = Day::new(self.day.opening);
            }
        }
        Ok(())
    }
}

// From bytes to commands.
use crate::commands::{Command, State};
use crate::word;
use std::io;
use std::io::Write;

// What the last byte was of: of a number with its value so far.
#[derive(Clone, Copy)]
enum Part {
    Nothing,
    Text,
    Comment,
    Word,
    Number(u32),
}

// What stands before the value of a number.
#[derive(Clone, Copy)]
enum Prefix {
    Kind(u32),
    Minus,
}

impl Prefix {
    // What a number before a colon says: its kind, or by the first number that is none a minus.
    fn of_kind(kind: u32) -> Prefix {
        if kind == 8 {
            Prefix::Minus
        } else {
            Prefix::Kind(kind)
        }
    }

    // The number with a value.
    fn number(self, value: u32) -> u32 {
        match self {
            Prefix::Kind(kind) => word::of(kind, 0).wrapping_add(value),
            Prefix::Minus => value.wrapping_neg(),
        }
    }
}

// What the input has said so far, the command that is read, and what of the next number.
#[derive(Clone, Copy)]
pub struct Input {
    state: State,
    command: Option<Command>,
    part: Part,
    prefix: Prefix,
}

impl Input {
    pub fn new() -> Input {
        Input {
            state: State::new(),
            command: None,
            part: Part::Nothing,
            prefix: Prefix::Kind(0),
        }
    }

    // A byte.
    pub fn read(&mut self, out: &mut impl Write, byte: u8) -> io::Result<()> {
        match self.part {
            Part::Text => self.text(out, byte),
            Part::Comment => {
                self.comment(byte);
                Ok(())
            }
            Part::Nothing | Part::Word | Part::Number(_) => self.sign(out, byte),
        }
    }

    // A byte of a text, up to its end.
    fn text(&mut self, out: &mut impl Write, byte: u8) -> io::Result<()> {
        if byte == b'"' {
            self.part = Part::Nothing;
            return Ok(());
        }
        out.write_all(&[byte])
    }

    // A byte of a comment, up to the end of the line.
    fn comment(&mut self, byte: u8) {
        if byte == b'\n' {
            self.part = Part::Nothing;
        }
    }

    // A byte outside texts and comments.
    fn sign(&mut self, out: &mut impl Write, byte: u8) -> io::Result<()> {
        match byte {
            b'0'..=b'9' => {
                let digit = u32::from(byte - b'0');
                self.part = Part::Number(self.value().wrapping_mul(10).wrapping_add(digit));
                Ok(())
            }
            b':' => {
                self.prefix = Prefix::of_kind(self.value());
                self.part = Part::Nothing;
                Ok(())
            }
            _ => {
                self.end_number(out)?;
                self.mark(out, byte)
            }
        }
    }

    // The value so far of the number that is being read.
    fn value(&self) -> u32 {
        match self.part {
            Part::Number(value) => value,
            Part::Nothing | Part::Text | Part::Comment | Part::Word => 0,
        }
    }

    // The end of a number, where there was one.
    fn end_number(&mut self, out: &mut impl Write) -> io::Result<()> {
        let Part::Number(value) = self.part else {
            return Ok(());
        };
        let number = self.prefix.number(value);
        if let Some(command) = self.command {
            self.state.number(out, command, number)?;
        }
        self.prefix = Prefix::Kind(0);
        self.part = Part::Nothing;
        Ok(())
    }

    // A byte that is no digit, and that ends a number.
    fn mark(&mut self, out: &mut impl Write, byte: u8) -> io::Result<()> {
        match byte {
            b'a'..=b'z' => return self.letter(out, byte),
            b'"' => self.part = Part::Text,
            b'#' => self.part = Part::Comment,
            b'-' => {
                self.prefix = Prefix::Minus;
                self.part = Part::Nothing;
            }
            b'.' => {
                writeln!(out)?;
                self.part = Part::Nothing;
            }
            _ => self.part = Part::Nothing,
        }
        Ok(())
    }

    // A letter of a word: the first one is the command.
    fn letter(&mut self, out: &mut impl Write, byte: u8) -> io::Result<()> {
        if let Part::Word = self.part {
            return Ok(());
        }
        self.part = Part::Word;
        self.command = Command::of_letter(byte);
        if let Some(command) = self.command {
            self.state.command(out, command)?;
        }
        Ok(())
    }
}

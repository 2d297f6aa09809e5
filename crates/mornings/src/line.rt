// A line, from bytes to calls.
use crate::desk_calls::Call;
use std::io;
use std::io::Write;

// The most numbers of a line.
const ROOM: usize = 64;

// From a kind to its words.
const KIND: u32 = 536_870_912;

// The numbers of a line, how many they are, the number that is being read, and the call of the last letter. A call that is given too few
// numbers finds those of an earlier line after them.
#[derive(Clone, Copy)]
pub struct Line {
    pub numbers: [u32; ROOM],
    count: usize,
    number: u32,
    call: Option<Call>,
}

impl Line {
    pub fn new() -> Line {
        Line {
            numbers: [0; ROOM],
            count: 0,
            number: 0,
            call: None,
        }
    }

    // The numbers of this line.
    pub fn given(&self) -> &[u32] {
        &self.numbers[..self.count.min(ROOM)]
    }

    // The beginning of a line.
    fn begin(&mut self) {
        self.count = 0;
        self.number = 0;
        self.call = None;
    }

    // The end of a number: it stands after the others, where there is room.
    fn end_number(&mut self) {
        if self.count < ROOM {
            self.numbers[self.count] = self.number;
            self.count += 1;
            self.number = 0;
            self.call = None;
        }
    }

    // A byte.
    pub fn read(&mut self, out: &mut impl Write, byte: u8, desk: &mut [u32]) -> io::Result<()> {
        out.write_all(&[byte])?;
        match byte {
            b'0'..=b'9' => self.number = longer(self.number, byte - b'0'),
            b':' => self.number = self.number % 8 * KIND,
            b',' => self.end_number(),
            b'=' => {
                if let Some(call) = self.call {
                    call.run(out, self, desk)?;
                }
                self.begin();
            }
            b'\n' => self.begin(),
            _ => self.call = Call::of_letter(byte),
        }
        Ok(())
    }
}

// A word with a digit more.
fn longer(word: u32, digit: u8) -> u32 {
    word / KIND * KIND + word % KIND % 50_000_000 * 10 + u32::from(digit)
}

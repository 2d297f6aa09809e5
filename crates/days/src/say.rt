// What is printed of words.
use crate::asked::Pair;
use crate::word;
use std::io;
use std::io::Write;

// The values of words one after another.
pub fn values(out: &mut impl Write, words: &[u32]) -> io::Result<()> {
    for word in words {
        let value = word::value(*word);
        write!(out, " {value}")?;
    }
    Ok(())
}

// Pairs one after another, each two words: an end, and a worst lateness in two's complement.
pub fn pairs(out: &mut impl Write, words: &[u32], count: usize) -> io::Result<()> {
    for pair in words.chunks_exact(2).take(count) {
        if let [end, late] = pair {
            let pair = Pair {
                end: *end,
                late: late.cast_signed(),
            };
            write!(out, " {pair}")?;
        }
    }
    Ok(())
}

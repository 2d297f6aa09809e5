// The words of a line of plain text, and the numbers among them. Words stand between blanks; a comment goes from a # to the end of its
// line. A number is digits only, and fits the 29 bits of the value of a book's word.
#![tactic(auto)]

ghost use Rattle.std.specs.Prelude.{◌≡◌, ◌+◌, ◌≤◌, ◌<◌, length, drop, IfOk, IfErr, IfSome};
ghost use Rattle.std.specs.Iterator.{at_most};
ghost use Rattle.text_words.specs.declared.Wrong.TheVariants.{More};
ghost use Rattle.text_words.specs.Numbers.{all_digits, decimal, sized, number_of};
ghost use Rattle.text_words.specs.Parts.{Begins, WordIn, LineIn};

// The most numbers of a line: those of a posting.
pub const MOST: usize = 257;

// What is wrong with the numbers of a line: one is missing, has more than digits, or is above the 29 bits of a value; or a word is left.
#[derive(Clone, Copy, Debug, PartialEq, Eq)]
pub enum Wrong {
    Missing,
    Strange,
    Large,
    More,
}

// The words of a line that are still to be read.
#[derive(Clone, Copy)]
pub struct Words<'a> {
    pub rest: &'a [u8],
}

// A line of a text, its comment left out, and where the next one begins.
#[derive(Clone, Copy)]
pub struct Line<'a> {
    pub words: Words<'a>,
    pub next: usize,
}

fn all_digits(word: &[u8]) -> bool
    ensures { result ≡ all_digits word.now }
{
    word.iter().all(|byte| byte.is_ascii_digit())
}

// The number of a word of digits.
fn value(word: &[u8]) -> Result<u32, Wrong>
    ensures { result ≡ sized (decimal 0 word.now) }
{
    let mut v: u64 = 0;
    for byte in word {
        v = 10 * v + u64::from(byte.saturating_sub(b'0'));
        if v >= 536_870_912 {
            return Err(Wrong::Large);
        }
    }
    Ok(v as u32)
}

// The number of a word; the empty word stands for none.
pub fn number_of(word: &[u8]) -> Result<u32, Wrong>
    ensures { result ≡ number_of word.now }
{
    if word.is_empty() {
        return Err(Wrong::Missing);
    }
    if !all_digits(word) {
        return Err(Wrong::Strange);
    }
    value(word)
}

// Space, tab and carriage return.
fn is_blank(byte: u8) -> bool {
    matches!(byte, b' ' | b'\t' | b'\r')
}

// The first place that has this byte, or the end.
fn find(text: &[u8], byte: u8) -> usize
    ensures { result ≤ length text.now }
{
    text.iter().position(|x| *x == byte).unwrap_or(text.len())
}

impl<'a> Iterator for Words<'a> {
    type Item = &'a [u8];

    ghost remaining = { λ words. at_most (length words.rest.now) };

    ghost next_gives = { λ line word after. IfSome word (λ found. WordIn found.now after.rest.now line.rest.now) };

    fn next(&mut self) -> Option<&'a [u8]> {
        let line = self.rest;
        let start = line.iter().position(|byte| !is_blank(*byte))?;
        let after = &line[start + 1..];
        let more = after
            .iter()
            .position(|byte| is_blank(*byte))
            .unwrap_or(after.len());
        self.rest = &after[more..];
        Some(&line[start..start + 1 + more])
    }
}

impl<'a> Words<'a> {
    // The next word of the line as a number.
    #[tactic(auto, using(crate::proofs::Digits::number_bound))]
    pub fn number(&mut self) -> Result<u32, Wrong>
        ensures { IfOk result (λ value. value < 536870912) }
    {
        number_of(self.next().ok_or(Wrong::Missing)?)
    }

    // The line ends here.
    pub fn end(&mut self) -> Result<(), Wrong>
        ensures { IfErr result (λ wrong. wrong ≡ More) }
    {
        match self.next() {
            None => Ok(()),
            Some(_) => Err(Wrong::More),
        }
    }
}

// Where the first line of a text ends. An empty line is told at once: a text may have a million of them.
fn line_end(text: &[u8]) -> usize
    ensures { result ≤ length text.now }
{
    match text.split_first() {
        Some((b'\n', _)) | None => 0,
        Some((_, after)) => 1 + find(after, b'\n'),
    }
}

// The line of a text that begins at `at`.
pub fn line_at(text: &[u8], at: usize) -> Line<'_>
    requires { at ≤ length text.now }
    ensures next { (at < result.next) × (result.next ≤ length text.now + 1) }
    ensures part { Begins result.words.rest.now (drop at text.now) }
{
    let rest = &text[at..];
    let stop = line_end(rest);
    let line = &rest[..stop];
    let end = find(line, b'#');
    Line {
        words: Words { rest: &line[..end] },
        next: at + stop + 1,
    }
}

// The line of a text that begins at `at`, if its first word is this one: the words after that.
pub fn begins<'a>(text: &'a [u8], at: usize, word: &[u8]) -> Option<Line<'a>>
    requires { at ≤ length text.now }
    ensures next { IfSome result (λ line. (at < line.next) × (line.next ≤ length text.now + 1)) }
    ensures part { IfSome result (λ line. LineIn line.words.rest.now (drop at text.now)) }
{
    let mut line = line_at(text, at);
    if line.words.next()? == word {
        Some(line)
    } else {
        None
    }
}

// Reads the numbers of a line, as many as `values` has at most and nothing after them, to the front of `values`: how many.
pub fn read_numbers(mut words: Words<'_>, values: &mut [u32]) -> Result<usize, Wrong>
    ensures count { IfOk result (λ count. count ≤ length values.new) }
    ensures same_length { length values.new ≡ length values.old }
{
    for (k, value) in values.iter_mut().enumerate() {
        let Some(word) = words.next() else {
            return Ok(k);
        };
        *value = number_of(word)?;
    }
    words.end()?;
    Ok(values.len())
}

// The words of a book: kind and value, and the tests 1 to 3 at a word.
#![tactic(auto)]

ghost use Rattle.std.specs.Prelude.{◌≡◌, ◌≤◌, ◌<◌};
ghost use Rattle.words.specs.Words.{kind, value, word};
ghost use Rattle.words.specs.WordTests.{last_start, outside, kind_tests, word_tests};

use refusals::Refusal;

// The top three bits of a word, and the low 29.
pub fn kind_of(w: u32) -> u32
    ensures { result ≡ kind w }
{
    w / 536_870_912
}

pub fn value_of(w: u32) -> u32
    ensures { result ≡ value w }
{
    w % 536_870_912
}

// Below, `rest` is the book from `place` on: what is still to be read.

// A word of the rest, 0 past its end.
pub fn word_at(rest: &[u32], i: usize) -> u32
    ensures { result ≡ word rest.now i }
{
    if i < rest.len() { rest[i] } else { 0 }
}

fn is_outside(v: u32, lo: u32, hi: u32) -> bool
    ensures { result ≡ outside v lo hi }
{
    if v < lo { true } else { hi < v }
}

// Cut and kind at a word of the rest.
pub fn kind_tests(kind: u32, place: usize, rest: &[u32], i: usize) -> Result<(), Refusal>
    requires { (place ≤ last_start) × (i < 4) }
    ensures { result ≡ kind_tests kind place rest.now i }
{
    refusals::refuse_if(rest.len() <= i, Refusal::CUT, place + rest.len())?;
    let other = kind_of(word_at(rest, i)) != kind;
    refusals::refuse_if(other, Refusal::KIND, place + i)
}

// Cut, kind and range at a word of the rest.
pub fn word_tests(
    kind: u32,
    lo: u32,
    hi: u32,
    place: usize,
    rest: &[u32],
    i: usize,
) -> Result<(), Refusal>
    requires { (place ≤ last_start) × (i < 4) }
    ensures { result ≡ word_tests kind lo hi place rest.now i }
{
    kind_tests(kind, place, rest, i)?;
    let v = value_of(word_at(rest, i));
    refusals::refuse_if(is_outside(v, lo, hi), Refusal::RANGE, place + i)
}

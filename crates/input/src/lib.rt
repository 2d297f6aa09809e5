// The input of `slate`, bytes: its words, of which the first 1,028 are looked at, and whether odd bytes are left over.
#![tactic(auto)]

ghost use Rattle.std.specs.Prelude.{◌≡◌, ◌+◌, ◌≤◌, ◌<◌, length};
ghost use Rattle.input.specs.Input.{word_at, words_in, odd, Counted};

// The bytes and the words that are looked at.
const BYTES: usize = 4_112;

pub const WORDS: usize = 1_028;

// The little-endian word at a place.
fn word_at(input: &[u8], at: usize) -> u32
    requires { at + 4 ≤ length input.now }
    ensures { result ≡ word_at input.now at }
{
    u32::from_le_bytes([input[at], input[at + 1], input[at + 2], input[at + 3]])
}

// The whole words of an input, as many as there is room for: how many.
pub fn words_within(input: &[u8], words: &mut [u32]) -> usize
    ensures counted { Counted result words.new (words_in (length words.old) input.now) }
    ensures same_length { length words.new ≡ length words.old }
{
    let count = words.len().min(input.len() / 4);
    for (k, word) in words[..count].iter_mut().enumerate() {
        *word = word_at(input, 4 * k);
    }
    count
}

// The input ends before 1,028 words are in, with 1 to 3 odd bytes.
pub fn is_odd(input: &[u8]) -> bool
    ensures { result ≡ odd input.now }
{
    input.len() < BYTES && input.len() % 4 != 0
}

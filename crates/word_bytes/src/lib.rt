// Words as bytes, lowest byte first: the words that `input` reads of them are the same again.
#![tactic(auto)]

ghost use Rattle.std.specs.Prelude.{◌+◌, ◌*◌, ◌≤◌, length};
ghost use Rattle.word_bytes.specs.Written.{Put, Written};

// A word at a place.
pub fn put_word(bytes: &mut [u8], at: usize, word: u32)
    requires { at + 4 ≤ length bytes.old }
    ensures { Put at word bytes.old bytes.new }
{
    bytes[at..at + 4].copy_from_slice(&word.to_le_bytes());
}

// Words from a place on: the place after them.
pub fn put_words(words: &[u32], bytes: &mut [u8], at: usize) -> usize
    requires { at + 4 * length words.now ≤ length bytes.old }
    ensures { Written result at words.now bytes.old bytes.new }
{
    for (k, word) in words.iter().enumerate() {
        put_word(bytes, at + 4 * k, *word);
    }
    at + 4 * words.len()
}

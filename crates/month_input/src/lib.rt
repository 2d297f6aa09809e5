// The input of `month`, as it comes in: a window on the bytes from the start of a day on, the day that is cut off its front, and the window
// moved on.
#![tactic(auto)]

ghost use Rattle.std.specs.Prelude.{◌≡◌, ℕ, ◌+◌, ◌-◌, ◌*◌, ◌≤◌, length, take, drop};
ghost use Rattle.month_input.specs.Layout.{cut_day};
ghost use Rattle.month_input.specs.Windows.{cut_of, ExtentWithin};

// The most words of a book and entries of a posting that a day may have; and the words and the bytes of the longest day.
const BOOK: usize = 1_028;

const POSTING: usize = 257;

pub const WORDS: usize = 1_287;

pub const WINDOW: usize = 5_148;

// A day at the start of some words: how many words its book has, and how many entries its posting.
#[derive(Clone, Copy)]
pub struct Extent {
    pub book: usize,
    pub posting: usize,
}

// The day at the start of some words, if there is one: the book's length, the book, the posting's length, the posting.
pub fn cut_day(words: &[u32]) -> Option<Extent>
    ensures { (cut_day words.now ≡ cut_of words.now result) × ExtentWithin (length words.now) result }
{
    let book = *words.first()? as usize;
    if BOOK < book {
        return None;
    }
    let posting = *words.get(book + 1)? as usize;
    if POSTING < posting {
        return None;
    }
    if words.len() < book + posting + 2 {
        return None;
    }
    Some(Extent { book, posting })
}

// Moves the bytes after the first `used` of the `have` that a window holds to its front: how many.
pub fn slide(window: &mut [u8], used: usize, have: usize) -> usize
    requires { (used ≤ have) × (have ≤ length window.old) }
    ensures { (result ≡ have - used) × (take result window.new ≡ take result (drop used window.old)) ×
        (length window.new ≡ length window.old) }
{
    window[..have].rotate_left(used);
    have - used
}

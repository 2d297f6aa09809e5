// The words of a month's input: of each day its book and its posting, each behind its length. The rows of a posting are found by their
// order numbers.
#![tactic(auto)]

ghost use Rattle.std.specs.Prelude.{◌≡◌, ◌+◌, ◌*◌, ◌≤◌, ◌<◌, length, MatchOption, OnOk, IfErr};
ghost use Rattle.month_words.specs.Postings.{RowOf, Turned};
ghost use Rattle.month_words.specs.Days.{PutList, PutDay};

use text_days::Book;

// The most order numbers of a posting.
pub const MOST: usize = 257;

// The first row that has this order number, counted from 1.
fn row_of(book: &Book, rows: usize, number: u32) -> Option<usize>
    requires { rows ≤ 256 }
    ensures { MatchOption result (RowOf 0 rows number book.now) (λ row. (0 < row) × RowOf row rows number book.now) }
{
    let word = text_days::word_of(3, number);
    for i in 0..rows {
        if book[4 * i + 2] == word {
            return Some(i + 1);
        }
    }
    None
}

// Puts rows in the place of their order numbers. Stops at the first number that no row has: its place.
pub fn find_rows(book: &Book, rows: usize, posting: &mut [u32]) -> Result<(), usize>
    requires { rows ≤ 256 }
    ensures found { OnOk result (Turned (length posting.old) rows (length posting.old) book.now posting.old posting.new) }
    ensures lost { IfErr result (λ k. (k < length posting.old)
        × Turned k rows (length posting.old) book.now posting.old posting.new) }
{
    for (k, number) in posting.iter_mut().enumerate() {
        let row = row_of(book, rows, *number).ok_or(k)?;
        *number = row as u32;
    }
    Ok(())
}

// A list of words behind its length.
fn put_list(words: &[u32], bytes: &mut [u8], at: usize) -> usize
    requires { (length words.now ≤ 1027) × (at + (4 + 4 * length words.now) ≤ length bytes.old) }
    ensures { PutList result at words.now bytes.old bytes.new }
{
    word_bytes::put_word(bytes, at, words.len() as u32);
    word_bytes::put_words(words, bytes, at + 4)
}

// A day: the place after it.
pub fn put_day(book: &[u32], posting: &[u32], bytes: &mut [u8], at: usize) -> usize
    requires { (length book.now ≤ 1027) × (length posting.now ≤ 257)
        × (at + (8 + 4 * (length book.now + length posting.now)) ≤ length bytes.old) }
    ensures { PutDay result at book.now posting.now bytes.old bytes.new }
{
    let next = put_list(book, bytes, at);
    put_list(posting, bytes, next)
}

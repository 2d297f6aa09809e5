// The calls for a row by its number, of either profile: the place of its number word, and the part of the book that holds its words.
#![tactic(auto)]

ghost use Rattle.std.specs.Prelude.{◌≡◌};
ghost use Rattle.row_calls.specs.Places.{place_call, row_words_at, words_call};
ghost use Rattle.row_calls.specs.Cited.{WordsInside, PlaceAmong};

use readers::Terms;
use refusals::Refusal;
use schedule::Profile;

// The place of a row's number word among so many rows, counted from 1.
fn place_among(count: usize, row: u32) -> Result<usize, Refusal>
    ensures { PlaceAmong count row result }
{
    let k = row as usize;
    if k == 0 || count < k {
        return Err(Refusal {
            number: Refusal::UNLISTED,
            place: count,
        });
    }
    Ok(4 * (k - 1) + 2)
}

// The place of a row's number word, rows counted from 1, or the refusal. It works out no ends, and is told no opening.
pub fn row_place(profile: Profile, book: &[u32], row: u32) -> Result<usize, Refusal>
    ensures { result ≡ place_call profile book.now row }
{
    let terms = Terms {
        profile,
        opening: 0,
    };
    let given = readers::read(terms, book)?;
    place_among(given.count, row)
}

// The four words of a row that was looked for, where it was found.
fn words_at<'a>(book: &'a [u32], found: Result<usize, Refusal>) -> &'a [u32]
    requires { WordsInside found book.now }
    ensures { result.now ≡ row_words_at found book.now }
{
    match found {
        Ok(start) => &book[start..start + 4],
        Err(_) => &book[0..0],
    }
}

// The four words of a row, as the part of the caller's book that holds them; empty where the call is refused.
pub fn row_words<'a>(profile: Profile, book: &'a [u32], row: u32) -> &'a [u32]
    ensures { result.now ≡ words_call profile book.now row }
{
    let found = row_place(profile, book, row);
    words_at(book, found)
}

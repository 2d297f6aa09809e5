// A word of a book: a kind and a value. Words one after another, of a book or a posting.

// From a kind to its words.
const KIND: u32 = 536_870_912;

// A word of a kind and a value.
pub fn of(kind: u32, value: u32) -> u32 {
    kind % 8 * KIND + value % KIND
}

pub fn value(w: u32) -> u32 {
    w % KIND
}

// A word with another value.
pub fn with_value(w: u32, value: u32) -> u32 {
    of(w / KIND, value)
}

// A word with its value so much larger.
pub fn moved(w: u32, by: u32) -> u32 {
    with_value(w, w.wrapping_add(by))
}

// A word with the next kind, after the last one the first.
pub fn with_next_kind(w: u32) -> u32 {
    of(w / KIND + 1, w)
}

// Words one after another, and how many they are. Those past the room are counted, and not kept.
#[derive(Clone, Copy)]
pub struct Words<const ROOM: usize> {
    words: [u32; ROOM],
    length: usize,
}

impl<const ROOM: usize> Words<ROOM> {
    pub fn new() -> Self {
        Words {
            words: [0; ROOM],
            length: 0,
        }
    }

    pub fn len(&self) -> usize {
        self.length
    }

    // The first words, or all where there are fewer.
    pub fn first(&self, count: usize) -> &[u32] {
        &self.words[..count.min(ROOM)]
    }

    pub fn as_slice(&self) -> &[u32] {
        self.first(self.length)
    }

    // The word at a place, or 0 where there is no place for one.
    pub fn at(&self, place: usize) -> u32 {
        self.words.get(place).copied().unwrap_or(0)
    }

    pub fn set(&mut self, place: usize, word: u32) {
        if place < ROOM {
            self.words[place] = word;
        }
    }

    // The same words cut, or made longer.
    pub fn cut(&self, length: usize) -> Self {
        Words { length, ..*self }
    }

    // The same words but for the one at a place.
    pub fn with(&self, place: usize, word: u32) -> Self {
        let mut changed = *self;
        changed.set(place, word);
        changed
    }

    pub fn clear(&mut self) {
        self.length = 0;
    }

    // A word more.
    pub fn push(&mut self, word: u32) {
        self.set(self.length, word);
        self.length = self.length.saturating_add(1);
    }

    // The word so many places before the end, or 0 where there is none.
    fn before_end(&self, count: usize) -> u32 {
        self.length
            .checked_sub(count)
            .map_or(0, |place| self.at(place))
    }

    // The word that a row takes over from the two rows above it: as much above the one as that is above the other, a release or a due by
    // so much more.
    fn next_word(&self, rise: u32) -> u32 {
        let word = self
            .before_end(4)
            .wrapping_mul(2)
            .wrapping_sub(self.before_end(8));
        if word / KIND % 2 == 0 {
            word.wrapping_add(rise)
        } else {
            word
        }
    }

    // So many rows more, each made of the two above it.
    pub fn push_rows(&mut self, count: u32, rise: u32) {
        for _ in 0..4 * u64::from(count) {
            self.push(self.next_word(rise));
        }
    }
}

// A day and its book, from the numbers of a line.

// From a kind to its words.
const KIND: u32 = 536_870_912;

// Classes are below this.
const CLASSES: u32 = 8;

// The most rows of a day.
pub const ROWS: usize = 8;

// The most words of a book.
const WORDS: usize = 36;

// A row by its release, time at the desk, which is opening plus length, and due.
#[derive(Clone, Copy)]
pub struct Row {
    pub release: u32,
    pub time: u32,
    pub due: u32,
}

// The words of a book. A word that has no room is left out.
#[derive(Clone, Copy)]
pub struct Book {
    words: [u32; WORDS],
    size: usize,
}

impl Book {
    pub fn as_slice(&self) -> &[u32] {
        &self.words[..self.size.min(WORDS)]
    }

    // A word more, of a kind and a value.
    pub fn push(&mut self, kind: u32, value: u32) {
        if self.size < WORDS {
            self.words[self.size] = kind % 8 * KIND + value % KIND;
            self.size += 1;
        }
    }
}

// How many numbers of the line were read, and the last three; the book. The opening minutes; the free minute, the pace, and the class, if
// there is one; the rows, the due of the last one, and the sum of their times. Whether some reading time is an exact half over whole
// minutes, whether some length drops less than a half, whether a row is due before the row above it, and whether two rows are due at the
// same minute.
#[derive(Clone, Copy)]
pub struct Day {
    pub read: usize,
    pub last: [u32; 3],
    pub book: Book,
    pub opening: u32,
    pub free: u32,
    pace: u32,
    class: Option<u32>,
    pub count: usize,
    pub rows: [Row; ROWS],
    above: u32,
    pub total: u32,
    pub half: bool,
    pub dropped: bool,
    pub unsorted: bool,
    pub tie: bool,
}

impl Day {
    pub fn new(opening: u32) -> Day {
        Day {
            read: 0,
            last: [0; 3],
            book: Book {
                words: [0; WORDS],
                size: 0,
            },
            opening,
            free: 0,
            pace: 0,
            class: Some(0),
            count: 0,
            rows: [Row {
                release: 0,
                time: 0,
                due: u32::MAX,
            }; ROWS],
            above: 0,
            total: 0,
            half: false,
            dropped: false,
            unsorted: false,
            tie: false,
        }
    }

    // A number more of the line.
    pub fn add(&mut self, number: u32) {
        let [_, a, b] = self.last;
        self.last = [a, b, number];
        self.read = self.read.saturating_add(1);
        if self.read == 3 {
            self.add_head(a, b, number);
        } else if self.read % 3 == 0 {
            self.add_row(a, b, number);
        }
    }

    // The first three numbers: the free minute, the pace and the class.
    fn add_head(&mut self, free: u32, pace: u32, class: u32) {
        self.book.push(1, free);
        self.book.push(2, pace);
        self.free = free;
        self.pace = pace;
        self.class = if class < CLASSES { Some(class) } else { None };
    }

    // A row more.
    fn add_row(&mut self, release: u32, pages: u32, due: u32) {
        self.add_words(release, pages, due);
        self.mark(pages, due);
        let time = self.opening.wrapping_add(length_of(pages, self.pace));
        if self.count < ROWS {
            self.rows[self.count] = Row { release, time, due };
            self.count += 1;
            self.total = self.total.wrapping_add(time);
        }
    }

    // The words of a row, the last one its class or its due. Rows have the numbers 11, 12 and so on.
    fn add_words(&mut self, release: u32, pages: u32, due: u32) {
        let number = 11 + (self.count % ROWS) as u32;
        self.book.push(3, number);
        self.book.push(4, release);
        self.book.push(5, pages);
        match self.class {
            Some(class) => self.book.push(0, class),
            None => self.book.push(6, due),
        }
    }

    // What a row's reading time and due are like.
    fn mark(&mut self, pages: u32, due: u32) {
        let over = twice_over(pages, self.pace);
        self.half |= over == self.pace;
        self.dropped |= 0 < over && over < self.pace;
        self.unsorted |= due < self.above;
        self.above = due;
        self.tie |= self.rows.iter().any(|row| row.due == due);
    }

    // All rows are of one class.
    pub fn is_of_class(&self) -> bool {
        self.class.is_some()
    }
}

// Twice what the reading time has over whole minutes, in parts of which a minute has `pace`.
fn twice_over(pages: u32, pace: u32) -> u32 {
    let minute = 2 * (pace % 1_000);
    if minute == 0 {
        return 0;
    }
    pages % 10_000 * 120 % minute
}

// Length: the reading time to the nearest minute, an exact half going up.
fn length_of(pages: u32, pace: u32) -> u32 {
    let minute = 2 * (pace % 1_000);
    if minute == 0 {
        return 0;
    }
    (pages % 10_000 * 120 + minute / 2) / minute
}

// The offered calls against the pairs of every order.
use crate::asked::Judged;
use crate::day::{Day, ROWS};
use crate::orders::{Front, PAIRS, Pair};
use crate::tally::{Count, Tally};
use crate::{asked, orders};
use refusals::Refusal;
use std::io::Write;
use std::{fmt, io};

// The most words of a list: two for each plan, and no more plans than rows.
const LIST: usize = 2 * ROWS;

// What was asked: the list, where its number is 0, or a pair in it; the order of a plan, or that for a bound; or a verdict.
#[derive(Clone, Copy)]
enum Question {
    List(u32),
    Order(u32),
    Bound(u32),
    Verdict(u32),
}

impl fmt::Display for Question {
    fn fmt<W: fmt::Write>(&self, f: &mut fmt::Formatter<W>) -> fmt::Result {
        match self {
            Question::List(number) => write!(f, "l {number}"),
            Question::Order(plan) => write!(f, "o {plan}"),
            Question::Bound(bound) => write!(f, "f {bound}"),
            Question::Verdict(code) => write!(f, "j {code}"),
        }
    }
}

// An answer that is right, or a difference: which book, counted from 1, and what was asked.
fn check(
    out: &mut impl Write,
    tally: &mut Tally,
    is_right: bool,
    question: Question,
) -> io::Result<()> {
    if is_right {
        return Ok(());
    }
    tally.add(Count::Differences, 1);
    let book = tally.books();
    writeln!(out, "{book} {question}")
}

// A day whose rows are all read, and the pairs that no order of them beats.
#[derive(Drop)]
struct Case {
    day: Day,
    front: Front,
}

impl Case {
    // What the day is like.
    fn count(&self, tally: &mut Tally) {
        let day = &self.day;
        let front = &self.front;
        tally.add(Count::Books, 1);
        tally.add_plans(front.count);
        tally.add_if(Count::OneClass, day.is_of_class());
        tally.add_if(Count::Halves, day.half);
        tally.add_if(Count::Dropped, day.dropped);
        tally.add_if(Count::Unsorted, day.unsorted);
        tally.add_if(Count::Ties, day.tie);
        let is_idle = front.at(0).end != day.free.wrapping_add(day.total);
        tally.add_if(Count::Idle, is_idle);
        let last = front.at(front.count.wrapping_sub(1));
        tally.add_if(Count::Early, last.late < orders::RAISE);
        tally.add(Count::Orders, orders::how_many(day.count));
    }

    // An order for a bound, raised, keeps it and ends as soon as any order that keeps it; refused with the number where none does.
    fn is_right(
        &self,
        answer: Result<Pair, Refusal>,
        rows: &[u32; ROWS],
        late: u32,
        number: u32,
    ) -> bool {
        let end = u32::MAX;
        match (answer, self.front.first_within(Pair { end, late })) {
            (Ok(pair), Some(k)) => {
                let is_kept = pair.end == self.front.at(k).end && pair.late <= late;
                is_kept && self.attains(rows, pair)
            }
            (Err(refusal), None) => refusal.number == number,
            _ => false,
        }
    }

    // The rows are an order of all rows, and it attains the pair.
    fn attains(&self, rows: &[u32; ROWS], pair: Pair) -> bool {
        orders::has_all(&self.day, rows) && orders::pair_of(&self.day, rows) == pair
    }

    // The order for a bound.
    fn bound(&self, out: &mut impl Write, tally: &mut Tally, y: u32) -> io::Result<()> {
        let mut rows = [0u32; ROWS];
        let answer = asked::bound(self.day.opening, self.day.book.as_slice(), y, &mut rows);
        tally.add(Count::Bounds, 1);
        tally.add_if(Count::Unkept, answer.is_err());
        let is_right = self.is_right(answer, &rows, y, Refusal::UNKEPT);
        check(out, tally, is_right, Question::Bound(y))
    }

    // The order of a plan, which is the order for its own worst lateness. A number that no plan has is refused, with the count of plans as
    // place.
    fn plan(&self, out: &mut impl Write, tally: &mut Tally, k: u32, late: u32) -> io::Result<()> {
        let mut rows = [0u32; ROWS];
        let answer = asked::plan(self.day.opening, self.day.book.as_slice(), k, &mut rows);
        let is_placed = match answer {
            Ok(_) => true,
            Err(refusal) => refusal.place == self.front.count,
        };
        let is_right = is_placed && self.is_right(answer, &rows, late, Refusal::UNLISTED);
        check(out, tally, is_right, Question::Order(k))
    }

    // A pair in the list, its plan, and bounds at its lateness, one below, one above, and half way to that of the next.
    fn pair(
        &self,
        out: &mut impl Write,
        tally: &mut Tally,
        words: &[u32; LIST],
        k: usize,
    ) -> io::Result<()> {
        let pair = self.front.at(k);
        let late = pair.late;
        let next = self.front.at(k.wrapping_add(1)).late;
        let number = (k % PAIRS) as u32 + 1;
        check(out, tally, has_pair(words, k, pair), Question::List(number))?;
        tally.add(Count::Listed, 1);
        self.plan(out, tally, number, late)?;
        self.bound(out, tally, late)?;
        self.bound(out, tally, late.wrapping_sub(1))?;
        self.bound(out, tally, late.wrapping_add(1))?;
        self.bound(out, tally, late / 2 + next / 2)
    }

    // The list, the orders of its plans and of none, and the orders for bounds.
    fn plans(&self, out: &mut impl Write, tally: &mut Tally) -> io::Result<()> {
        let mut words = [0u32; LIST];
        let answer = asked::list(self.day.opening, self.day.book.as_slice(), &mut words);
        let is_counted = answer == Ok(self.front.count);
        let count = (self.front.count % PAIRS) as u32;
        check(out, tally, is_counted, Question::List(0))?;
        self.plan(out, tally, 0, 0)?;
        self.plan(out, tally, count + 1, 0)?;
        self.bound(out, tally, 0)?;
        self.bound(out, tally, u32::MAX)?;
        for k in 0..self.front.as_slice().len() {
            self.pair(out, tally, &words, k)?;
        }
        Ok(())
    }

    // The verdict on an order.
    fn verdict(&self, out: &mut impl Write, tally: &mut Tally, code: u32) -> io::Result<()> {
        let day = &self.day;
        let rows = orders::order_at(day.count, code);
        let posting = &rows[..day.count.min(ROWS)];
        let pair = orders::pair_of(day, &rows);
        let right = Judged {
            pair,
            beaten_by: self.front.first_beating(pair),
        };
        let answer = asked::verdict(day.opening, day.book.as_slice(), posting);
        let is_unbeaten = match answer {
            Ok(judged) => judged.beaten_by.is_none(),
            Err(_) => false,
        };
        tally.add(Count::Verdicts, 1);
        tally.add_if(Count::Unbeaten, is_unbeaten);
        check(out, tally, answer == Ok(right), Question::Verdict(code))
    }

    fn verdicts(&self, out: &mut impl Write, tally: &mut Tally) -> io::Result<()> {
        let n = self.day.count;
        for code in 0..orders::how_many(n) {
            if is_judged(n, code) {
                self.verdict(out, tally, code)?;
            }
        }
        Ok(())
    }
}

// The list has the pair at a place.
fn has_pair(words: &[u32; LIST], k: usize, pair: Pair) -> bool {
    let at = 2 * (k % ROWS);
    words[at] == pair.end && words[at + 1] == pair.late.wrapping_sub(orders::RAISE)
}

// All orders of up to 5 rows are judged, and some hundred of more.
fn is_judged(n: usize, code: u32) -> bool {
    match n {
        6 => code % 7 == 0,
        7 => code % 41 == 0,
        8 => code % 397 == 0,
        _ => true,
    }
}

// A day whose rows are all read: its book ends with their count.
pub fn whole_day(out: &mut impl Write, tally: &mut Tally, read: Day) -> io::Result<()> {
    let mut day = read;
    day.book.push(7, (day.count % (ROWS + 1)) as u32);
    let front = Front::of(&day);
    let case = Case { day, front };
    case.count(tally);
    case.plans(out, tally)?;
    case.verdicts(out, tally)
}

// What crosses the C boundary: one struct for every answer, and each case of an answer in it.
#![tactic(auto)]

ghost use Rattle.std.specs.Prelude.{◌≡◌, Ok};
ghost use Rattle.calls.specs.Answers.{said_no, said_list, said_order, said_verdict, said_place};
ghost use Rattle.open_desk.specs.Answers.{said_open, said_start, said_pace};
ghost use Rattle.several.specs.Answers.{said_several};
ghost use Rattle.latest_free.specs.Answers.{said_latest};
ghost use Rattle.answers.specs.Boundary.{answer_of, answer_of_desks};

use desk_open::Opened;
use desk_start::Stand;
use latest_free::LatestStart;
use outcomes::{Attained, Verdict};
use refusals::Refusal;
use several::Chosen;
use several_books::DeskRefusal;

// What every call answers: the refusal's number, 0 for none, and its place, or the place of a row's number word; the count of plans, the
// first plan that beats a posting, 0 for none, or the rows of an opened desk; end and worst lateness, or the worst lateness so far of an
// open desk; an open desk's minute, or the latest free minute; of several desks the one that a refusal concerns, 0 for none, and the sum of
// the overtimes. A field that a case does not speak of is 0.
#[repr(C)]
#[derive(Clone, Copy, Default)]
pub struct Answer {
    pub place: usize,
    pub count: usize,
    pub refusal: u32,
    pub end: u32,
    pub late: i32,
    pub minute: u32,
    pub desk: u32,
    pub overtime: u32,
}

fn refused(refusal: Refusal) -> Answer
    ensures { result ≡ answer_of (said_no refusal.number refusal.place) }
{
    Answer {
        place: refusal.place,
        refusal: refusal.number,
        ..Answer::default()
    }
}

pub fn of_list(list: Result<usize, Refusal>) -> Answer
    ensures { result ≡ answer_of (said_list list) }
{
    match list {
        Ok(count) => Answer {
            count,
            ..Answer::default()
        },
        Err(refusal) => refused(refusal),
    }
}

pub fn of_order(order: Result<Attained, Refusal>) -> Answer
    ensures { result ≡ answer_of (said_order order) }
{
    match order {
        Ok(attained) => Answer {
            end: attained.end,
            late: attained.late,
            ..Answer::default()
        },
        Err(refusal) => refused(refusal),
    }
}

fn judged(given: Verdict) -> Answer
    ensures { result ≡ answer_of (said_verdict (Ok given)) }
{
    match given {
        Verdict::Unbeaten(end, late) => Answer {
            end,
            late,
            ..Answer::default()
        },
        Verdict::Beaten(end, late, plan) => Answer {
            count: plan,
            end,
            late,
            ..Answer::default()
        },
    }
}

pub fn of_verdict(verdict: Result<Verdict, Refusal>) -> Answer
    ensures { result ≡ answer_of (said_verdict verdict) }
{
    match verdict {
        Ok(given) => judged(given),
        Err(refusal) => refused(refusal),
    }
}

pub fn of_place(row: Result<usize, Refusal>) -> Answer
    ensures { result ≡ answer_of (said_place row) }
{
    match row {
        Ok(place) => Answer {
            place,
            ..Answer::default()
        },
        Err(refusal) => refused(refusal),
    }
}

pub fn of_open(opening: Result<Opened, Refusal>) -> Answer
    ensures { result ≡ answer_of (said_open opening) }
{
    match opening {
        Ok(opened) => Answer {
            count: opened.rows,
            minute: opened.minute,
            ..Answer::default()
        },
        Err(refusal) => refused(refusal),
    }
}

pub fn of_start(start: Result<Stand, Refusal>) -> Answer
    ensures { result ≡ answer_of (said_start start) }
{
    match start {
        Ok(stand) => Answer {
            late: stand.late,
            minute: stand.minute,
            ..Answer::default()
        },
        Err(refusal) => refused(refusal),
    }
}

pub fn of_pace(change: Result<(), Refusal>) -> Answer
    ensures { result ≡ answer_of (said_pace change) }
{
    match change {
        Ok(()) => Answer::default(),
        Err(refusal) => refused(refusal),
    }
}

pub fn of_several(choice: Result<Chosen, DeskRefusal>) -> Answer
    ensures { result ≡ answer_of_desks (said_several choice) }
{
    match choice {
        Ok(chosen) => Answer {
            late: chosen.late,
            overtime: chosen.overtime,
            ..Answer::default()
        },
        Err(turned) => Answer {
            desk: turned.desk,
            ..refused(turned.refusal)
        },
    }
}

pub fn of_latest(start: Result<LatestStart, Refusal>) -> Answer
    ensures { result ≡ answer_of (said_latest start) }
{
    match start {
        Ok(latest) => Answer {
            end: latest.end,
            late: latest.late,
            minute: latest.minute,
            ..Answer::default()
        },
        Err(refusal) => refused(refusal),
    }
}

// The totals of a month, as its days come in one after another: they go in by value and come back with a day more. What they hold is the
// report of the days so far (`report_by`).
#![tactic(auto)]

ghost use Rattle.std.specs.Prelude.{◌≡◌, [], suc, ◌+◌, ◌≤◌, ◌<◌};
ghost use Rattle.totals.specs.Report.{with_day, report_of};
ghost use Rattle.totals.specs.Mean.{mean_of};
ghost use Rattle.totals.specs.Held.{days, report_by, mean_by, SumsFit};

use day_result::DayResult;

// The days accepted and refused, those beaten, the idle minutes, and the worst latenesses, each raised by 2^31 before it is added.
#[derive(Clone, Copy, Default)]
pub struct Totals {
    pub accepted: u32,
    pub refused: u32,
    pub beaten: u32,
    pub idle: u64,
    pub late: u64,
}

// A mean of latenesses, rounded down: the quotient, raised by 2^31, and the remainder.
#[derive(Clone, Copy)]
pub struct RaisedMean {
    pub quotient: u64,
    pub remainder: u64,
}

impl Totals {
    // The most days of a month.
    pub const DAYS: u32 = 31;

    // A month with no day yet.
    pub fn begin() -> Totals
        ensures { (report_by result ≡ report_of []) × SumsFit result × (days result ≡ 0) }
    {
        Totals::default()
    }

    // An accepted day more, with its idle minutes and its worst lateness. That it is beaten is not counted here.
    fn with_accepted(self, idle: u32, late: u32) -> Totals
        requires { SumsFit self × (days self < 31) }
        ensures { (result.accepted ≡ suc self.accepted) × (result.refused ≡ self.refused) × (result.beaten ≡ self.beaten) ×
            (result.idle ≡ idle + self.idle) × (result.late ≡ late + self.late) }
    {
        Totals {
            accepted: self.accepted + 1,
            idle: self.idle + u64::from(idle),
            late: self.late + u64::from(late),
            ..self
        }
    }

    // A day more.
    pub fn with_day(self, res: DayResult) -> Totals
        requires { SumsFit self × (days self < 31) }
        ensures { (report_by result ≡ with_day res (report_by self)) × SumsFit result × (days result ≡ suc (days self)) }
    {
        match res {
            DayResult::Refused => Totals {
                refused: self.refused + 1,
                ..self
            },
            DayResult::Unbeaten(idle, late) => self.with_accepted(idle, schedule::raise(late)),
            DayResult::Beaten(idle, late) => {
                let accepted = self.with_accepted(idle, schedule::raise(late));
                Totals {
                    beaten: accepted.beaten + 1,
                    ..accepted
                }
            }
        }
    }

    // The mean of the worst latenesses. As each is raised by the same, the sum of all divides as the latenesses do.
    pub fn mean(self) -> RaisedMean
        requires { 1 ≤ self.accepted }
        ensures { mean_by result ≡ mean_of (report_by self).late self.accepted }
    {
        let count = u64::from(self.accepted);
        RaisedMean {
            quotient: self.late / count,
            remainder: self.late % count,
        }
    }
}

// The table of refusals: the number that each has, and a test that refuses.
#![tactic(auto)]

ghost use Rattle.std.specs.Prelude.{◌≡◌};
ghost use Rattle.refusals.specs.Tests.{refuse_if};

// A call is refused: the number and the place of the table of refusals.
#[derive(Clone, Copy, PartialEq, Eq)]
pub struct Refusal {
    pub number: u32,
    pub place: usize,
}

// The numbers of the table of refusals.
impl Refusal {
    pub const CUT: u32 = 1;

    pub const KIND: u32 = 2;

    pub const RANGE: u32 = 3;

    pub const TWICE: u32 = 4;

    pub const FULL: u32 = 5;

    pub const COUNT: u32 = 6;

    pub const TAIL: u32 = 7;

    pub const DISORDER: u32 = 8;

    pub const NARROW: u32 = 9;

    pub const NOT_POSTING: u32 = 10;

    pub const UNLISTED: u32 = 11;

    pub const UNKEPT: u32 = 12;

    pub const CROSSED: u32 = 13;

    pub const DONE: u32 = 14;

    pub const EARLY: u32 = 15;

    pub const OVERTIME: u32 = 16;

    pub const UNREACHABLE: u32 = 17;
}

// One test: where it is true, the refusal. Tests in sequence are left at the first refusal, by `?`.
pub fn refuse_if(test: bool, number: u32, place: usize) -> Result<(), Refusal>
    ensures { result ≡ refuse_if test number place }
{
    if test {
        Err(Refusal { number, place })
    } else {
        Ok(())
    }
}

// The lines that `slate` prints, made one after another in a sheet of bytes. Each function adds to a sheet that has `at` bytes, and gives
// how many it then has; its contract gives the bytes that it adds outright.
#![tactic(auto)]

ghost use Rattle.std.specs.Prelude.{◌+◌, ◌*◌, ◌≤◌, length};
ghost use Rattle.std.proofs.Math.IntN.{sub_ℕ};
ghost use Rattle.schedule.specs.Limits.{most_rows};
ghost use Rattle.results.specs.Results.{signed};
ghost use Rattle.lines.specs.LineBytes.{field, late_field, number_fields, two_fields, refused_line, rows_line, plan_line};
ghost use Rattle.lines.specs.SignedFields.{signed_field};
ghost use Rattle.lines.specs.Added.{Added};

// Bytes.
pub fn put(sheet: &mut [u8], at: usize, bytes: &[u8]) -> usize
    requires { at + length bytes.now ≤ length sheet.old }
    ensures { Added result at (length bytes.now) sheet.old bytes.now sheet.new }
{
    let end = at + bytes.len();
    sheet[at..end].copy_from_slice(bytes);
    end
}

// A field: a fixed word, and a number.
pub fn put_field(sheet: &mut [u8], at: usize, word: &[u8], number: u64) -> usize
    requires { at + (length word.now + 20) ≤ length sheet.old }
    ensures { Added result at (length word.now + 20) sheet.old
        (field word.now number) sheet.new }
{
    let end = put(sheet, at, word);
    let mut digits = [0u8; 20];
    let size = io::decimal(number, &mut digits);
    put(sheet, end, &digits[..size])
}

// A field whose number is signed: what `plus` is above `minus`, or below it.
pub fn put_signed(sheet: &mut [u8], at: usize, word: &[u8], plus: u64, minus: u64) -> usize
    requires { at + (length word.now + 21) ≤ length sheet.old }
    ensures { Added result at (length word.now + 21) sheet.old
        (signed_field word.now (sub_ℕ plus minus)) sheet.new }
{
    if plus < minus {
        let end = put(sheet, at, word);
        return put_field(sheet, end, b"-", minus - plus);
    }
    put_field(sheet, at, word, plus - minus)
}

// The field of a lateness, which is held in two's complement.
fn put_late(sheet: &mut [u8], at: usize, late: u32) -> usize
    requires { at + 27 ≤ length sheet.old }
    ensures { Added result at 27 sheet.old (late_field (signed late)) sheet.new }
{
    let above = if late < 2_147_483_648 {
        0
    } else {
        4_294_967_296
    };
    put_signed(sheet, at, b" late ", u64::from(late), above)
}

// The order numbers, a field each.
fn put_numbers(sheet: &mut [u8], at: usize, numbers: &[u32]) -> usize
    requires { at + (11 * length numbers.now + 10) ≤ length sheet.old }
    ensures { Added result at (11 * length numbers.now) sheet.old
        (number_fields numbers.now) sheet.new }
{
    let mut end = at;
    for number in numbers {
        end = put_field(sheet, end, b" ", u64::from(*number));
    }
    end
}

// A line of two fields.
fn put_two(
    sheet: &mut [u8],
    at: usize,
    first: &[u8],
    number: u64,
    second: &[u8],
    other: u64,
) -> usize
    requires { at + (length first.now + length second.now + 41) ≤ length sheet.old }
    ensures { Added result at (length first.now + length second.now + 41) sheet.old
        (two_fields first.now number second.now other) sheet.new }
{
    let mut end = put_field(sheet, at, first, number);
    end = put_field(sheet, end, second, other);
    put(sheet, end, b"\n")
}

// The line of a refusal.
pub fn refused_line(sheet: &mut [u8], at: usize, number: u32, place: usize) -> usize
    requires { at + 53 ≤ length sheet.old }
    ensures { Added result at 53 sheet.old (refused_line number place) sheet.new }
{
    put_two(
        sheet,
        at,
        b"refused ",
        u64::from(number),
        b" at ",
        place as u64,
    )
}

// The line that counts rows and plans.
pub fn rows_line(sheet: &mut [u8], at: usize, rows: usize, plans: usize) -> usize
    requires { at + 53 ≤ length sheet.old }
    ensures { Added result at 53 sheet.old (rows_line rows plans) sheet.new }
{
    put_two(sheet, at, b"rows ", rows as u64, b" plans ", plans as u64)
}

// The line of a plan.
pub fn plan_line(
    sheet: &mut [u8],
    at: usize,
    plan: usize,
    end: u32,
    late: u32,
    numbers: &[u32],
) -> usize
    requires { (length numbers.now ≤ most_rows) × (at + 2910 ≤ length sheet.old) }
    ensures { Added result at 2900 sheet.old (plan_line plan end (signed late) numbers.now) sheet.new }
{
    let mut next = put_field(sheet, at, b"plan ", plan as u64);
    next = put_field(sheet, next, b" end ", u64::from(end));
    next = put_late(sheet, next, late);
    next = put(sheet, next, b" order");
    next = put_numbers(sheet, next, numbers);
    put(sheet, next, b"\n")
}

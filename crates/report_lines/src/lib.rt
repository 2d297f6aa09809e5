// The lines that `month` prints, made one after another in a sheet of bytes. Each function adds to a sheet that has `at` bytes, and gives
// how many it then has; its contract gives the bytes that it adds outright.
#![tactic(auto)]

ghost use Rattle.std.specs.Prelude.{◌+◌, ◌*◌, ◌≤◌, length};
ghost use Rattle.std.proofs.Math.IntN.{sub_ℕ};
ghost use Rattle.lines.specs.Added.{Added};
ghost use Rattle.totals.specs.Held.{days, report_by, mean_by, SumsFit};
ghost use Rattle.report_lines.specs.ReportBytes.{number_line, days_line, late_line, mean_fields, mean_line, report_bytes, refused_bytes};

use totals::{RaisedMean, Totals};

// The bytes of a sheet: room for all lines.
pub const SHEET: usize = 256;

// A line of one number.
fn number_line(sheet: &mut [u8], at: usize, word: &[u8], number: u64) -> usize
    requires { at + (length word.now + 21) ≤ length sheet.old }
    ensures { Added result at (length word.now + 21) sheet.old
        (number_line word.now number) sheet.new }
{
    let end = lines::put_field(sheet, at, word, number);
    lines::put(sheet, end, b"\n")
}

// The line that counts the days.
fn days_line(sheet: &mut [u8], at: usize, accepted: u32, refused: u32) -> usize
    requires { (at + 90 ≤ length sheet.old) × (accepted + refused ≤ 31) }
    ensures { Added result at 85 sheet.old (days_line accepted refused) sheet.new }
{
    let mut end = lines::put_field(sheet, at, b"days ", u64::from(accepted + refused));
    end = lines::put_field(sheet, end, b" accepted ", u64::from(accepted));
    number_line(sheet, end, b" refused ", u64::from(refused))
}

// The line of the total worst lateness. Each of the latenesses that were added up is raised by 2^31.
fn late_line(sheet: &mut [u8], at: usize, late: u64, accepted: u32) -> usize
    requires { (at + 30 ≤ length sheet.old) × (accepted ≤ 31) }
    ensures { Added result at 27 sheet.old (late_line (sub_ℕ late (accepted * 2147483648))) sheet.new }
{
    let end = lines::put_signed(
        sheet,
        at,
        b"late ",
        late,
        u64::from(accepted) * 2_147_483_648,
    );
    lines::put(sheet, end, b"\n")
}

// The line of a mean.
fn mean_fields(sheet: &mut [u8], at: usize, mean: RaisedMean) -> usize
    requires { at + 60 ≤ length sheet.old }
    ensures { Added result at 58 sheet.old (mean_fields (mean_by mean)) sheet.new }
{
    let end = lines::put_signed(sheet, at, b"mean ", mean.quotient, 2_147_483_648);
    number_line(sheet, end, b" remainder ", mean.remainder)
}

// The line of the mean; none if no day is accepted.
fn mean_line(sheet: &mut [u8], at: usize, totals: Totals) -> usize
    requires { at + 60 ≤ length sheet.old }
    ensures { Added result at 58 sheet.old (mean_line (report_by totals).late totals.accepted) sheet.new }
{
    if totals.accepted == 0 {
        return at;
    }
    mean_fields(sheet, at, totals.mean())
}

// All lines of a month's report, on a sheet that has none.
pub fn report(sheet: &mut [u8], totals: Totals) -> usize
    requires { (256 ≤ length sheet.old) × SumsFit totals × (days totals ≤ 31) }
    ensures { Added result 0 256 sheet.old (report_bytes (report_by totals)) sheet.new }
{
    let mut end = days_line(sheet, 0, totals.accepted, totals.refused);
    end = number_line(sheet, end, b"beaten ", u64::from(totals.beaten));
    end = number_line(sheet, end, b"idle ", totals.idle);
    end = late_line(sheet, end, totals.late, totals.accepted);
    mean_line(sheet, end, totals)
}

// The one line of an input that is no month, on a sheet that has none.
pub fn refusal(sheet: &mut [u8]) -> usize
    requires { 256 ≤ length sheet.old }
    ensures { Added result 0 256 sheet.old refused_bytes sheet.new }
{
    lines::put(sheet, 0, b"refused\n")
}

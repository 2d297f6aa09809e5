// The lines that `slate` prints, all of them, from the bytes of an input. `fill` is the one function offered: it has no `requires`, and
// its contract gives every byte.
#![tactic(auto)]

ghost use Rattle.std.specs.Prelude.{◌≡◌, map, ℕ, ◌+◌, ◌*◌, ◌≤◌, length, get_or, replicate};
ghost use Rattle.schedule.specs.Limits.{most_rows, row_places};
ghost use Rattle.schedule.specs.Rows.{row};
ghost use Rattle.book.specs.Tables.{table_rows};
ghost use Rattle.results.specs.Results.{signed};
ghost use Rattle.calls.specs.Calls.{bound_call};
ghost use Rattle.calls.specs.Lines.{printed};
ghost use Rattle.lines.specs.LineBytes.{plan_line};
ghost use Rattle.lines.specs.Added.{Added};
ghost use Rattle.input.specs.Input.{words_in, Counted};
ghost use Rattle.sheet.specs.Printing.{slate_terms};
ghost use Rattle.sheet.specs.Shown.{plan_lines, bytes_of, shown};
ghost use Rattle.sheet.specs.Parts.{sheet_bytes, Answered, Listed, order_numbers, lines_of};

use book::Table;
use input::WORDS;
use refusals::Refusal;
use schedule::Desk;

// The bytes of a sheet: room for the line that counts and for those of 256 plans, 2,900 bytes each at most.
pub const SHEET: usize = 750_000;

// The number that a word in two's complement stands for.
fn signed_of(word: u32) -> i32
    ensures { result ≡ signed word }
{
    word.cast_signed()
}

// The order number of each row, at the row's place from 1.
fn numbers_of(table: Table) -> [u32; Desk::PLACES]
    requires { table.count ≤ most_rows }
    ensures { (length result ≡ row_places) × ((i : ℕ) → get_or result i 0 ≡ (row (table_rows table) i).number) }
{
    let mut numbers = [0u32; Desk::PLACES];
    for (i, row) in table.rows[..table.count].iter().enumerate() {
        numbers[i + 1] = row.number;
    }
    numbers
}

// The order number of a row, and 0 for a number that no row has.
fn number_at(numbers: &[u32; Desk::PLACES], row: u32) -> u32
    requires { length numbers.now ≡ row_places }
    ensures { result ≡ get_or numbers.now row 0 }
{
    let i = row as usize;
    if i < Desk::PLACES { numbers[i] } else { 0 }
}

// The order numbers of an order of rows, in its place.
fn name_rows(numbers: &[u32; Desk::PLACES], order: &mut [u32])
    requires { length numbers.now ≡ row_places }
    ensures { order.new ≡ map (λ i. get_or numbers.now i 0) order.old }
{
    for row in order.iter_mut() {
        *row = number_at(numbers, *row);
    }
}

// The order numbers of the order for a bound, in two's complement, one for each row.
fn order_numbers(book: &[u32], late: u32, numbers: &[u32; Desk::PLACES], order: &mut [u32])
    requires { length numbers.now ≡ row_places }
    ensures order_len_unchanged { length order.new ≡ length order.old }
    ensures order_after { order.new ≡ map (λ i. get_or numbers.now i 0)
        (bound_call slate_terms book.now (signed late) order.old).buffer }
{
    let _ = planner::order_for_bound(0, book, signed_of(late), order);
    name_rows(numbers, order);
}

// Room for an order.
fn no_order() -> [u32; Desk::ROWS]
    ensures { (most_rows ≡ length result) × (result ≡ replicate most_rows 0) }
{
    [0; Desk::ROWS]
}

// Room for a list.
fn no_plans() -> [u32; 512]
    ensures { 512 ≡ length result }
{
    [0; 512]
}

// The line of a plan. Its order is the order for the bound equal to its lateness.
fn put_plan(
    book: &[u32],
    numbers: &[u32; Desk::PLACES],
    rows: usize,
    plan: usize,
    end: u32,
    late: u32,
    sheet: &mut [u8],
    at: usize,
) -> usize
    requires { (length numbers.now ≡ row_places) × (rows ≤ most_rows) × (at + 2910 ≤ length sheet.old) }
    ensures { Added result at 2900 sheet.old
        (plan_line plan end (signed late) (order_numbers book.now numbers.now rows late)) sheet.new }
{
    let mut order = no_order();
    order_numbers(book, late, numbers, &mut order[..rows]);
    lines::plan_line(sheet, at, plan, end, late, &order[..rows])
}

// The lines of the plans.
fn put_plans(
    book: &[u32],
    numbers: &[u32; Desk::PLACES],
    rows: usize,
    count: usize,
    plans: &[u32; 512],
    sheet: &mut [u8],
    at: usize,
) -> usize
    requires { (Listed book.now numbers.now rows count plans.now) × (at + (2900 * count + 10) ≤ length sheet.old) }
    ensures { Added result at (2900 * count) sheet.old (plan_lines 1 (lines_of book.now)) sheet.new }
{
    let mut next = at;
    for k in 0..count {
        let end = plans[2 * k];
        let late = plans[2 * k + 1];
        next = put_plan(book, numbers, rows, k + 1, end, late, sheet, next);
    }
    next
}

// The lines of a book that is listed: the line that counts, then those of the plans.
fn put_listing(book: &[u32], count: usize, plans: &[u32; 512], sheet: &mut [u8]) -> usize
    requires { (Answered book.now count plans.now) × (sheet_bytes ≤ length sheet.old) }
    ensures { Counted result sheet.new (bytes_of (printed slate_terms book.now)) }
{
    let table = book::read_words(book).unwrap();
    let rows = table.count;
    let numbers = numbers_of(table);
    let at = lines::rows_line(sheet, 0, rows, count);
    put_plans(book, &numbers, rows, count, plans, sheet, at)
}

// All lines of an input whose words are those of the book.
fn put_lines(input: &[u8], book: &[u32], sheet: &mut [u8]) -> usize
    requires { (book.now ≡ words_in 1028 input.now) × (sheet_bytes ≤ length sheet.old) }
    ensures { Counted result sheet.new (shown input.now) }
{
    if input::is_odd(input) {
        return lines::refused_line(sheet, 0, Refusal::CUT, input.len() / 4);
    }
    let mut plans = no_plans();
    match planner::list(0, book, &mut plans) {
        Err(refusal) => lines::refused_line(sheet, 0, refusal.number, refusal.place),
        Ok(count) => put_listing(book, count, &plans, sheet),
    }
}

// The lines of an input, at the start of a sheet: how many bytes they are.
pub fn fill(input: &[u8], sheet: &mut [u8; SHEET]) -> usize
    ensures { Counted result sheet.new (shown input.now) }
{
    let mut words = [0u32; WORDS];
    let count = input::words_within(input, &mut words);
    put_lines(input, &words[..count], sheet)
}

// The accepted rows of a table, lent as a slice of records, and taken apart into columns of numbers.
// The functions over `&[Row]` are few and thin. Callers use `columns_in`, whose parameters are plain.
#![tactic(auto)]

ghost use Rattle.std.specs.Prelude.{◌≡◌, ◌≤◌, length};
ghost use Rattle.schedule.specs.Limits.{most_rows};
ghost use Rattle.book.specs.Tables.{table_rows};
ghost use Rattle.rows.specs.InColumns.{RowsInColumns};

use book::Table;
use schedule::{Desk, Row};

// The rows of a table taken apart: release, length, due and pages of row i stand at place i, and place 0 is for no row.
#[derive(Drop)]
pub struct Columns {
    pub release: [u32; Desk::PLACES],
    pub length: [u32; Desk::PLACES],
    pub due: [u32; Desk::PLACES],
    pub pages: [u32; Desk::PLACES],
}

// The accepted rows of a table: the first of its places, as many as it counts.
fn accepted_rows<'a>(table: &'a Table) -> &'a [Row]
    requires { table.now.count ≤ most_rows }
    ensures { result.now ≡ table_rows table.now }
{
    &table.rows[..table.count]
}

// All the rows, each at its number.
fn columns_of(rows: &[Row]) -> Columns
    requires { length rows.now ≤ most_rows }
    ensures { RowsInColumns rows.now result }
{
    let mut columns = Columns {
        release: [0; Desk::PLACES],
        length: [0; Desk::PLACES],
        due: [0; Desk::PLACES],
        pages: [0; Desk::PLACES],
    };
    for (i, row) in rows.iter().enumerate() {
        let number = i + 1;
        columns.release[number] = row.release;
        columns.length[number] = row.length;
        columns.due[number] = row.due;
        columns.pages[number] = row.pages;
    }
    columns
}

// The accepted rows of a table, in columns. Once a call, so that picks read plain numbers.
pub fn columns_in(table: Table) -> Columns
    requires { table.count ≤ most_rows }
    ensures { RowsInColumns (table_rows table) result }
{
    columns_of(accepted_rows(&table))
}

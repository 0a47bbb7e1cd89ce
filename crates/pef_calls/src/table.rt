//! Tables of hypercalls, in the order of their numbers.

ghost use Rattle.std.specs.Prelude.{◌≡◌, ◌<◌, ◌≤◌, ◌↔◌, IsTrue, IsSome, IfSome, option_map};
ghost use Rattle.pef_model.specs.Hypercalls.{IsRow, IsTable, row_of};

use pef_model::Row;
use std::marker::Model;

/// A table of `N` hypercalls, seen as its rows: their numbers rise strictly, and each names registers from R4 to R12 alone.
#[derive(Clone, Copy, Debug)]
pub struct Table<const N: usize> {
    pub(crate) rows: [Row; N],
}

impl<const N: usize> Model for Table<N> {
    ghost use Rattle.std.specs.Prelude.{List};
    ghost use Rattle.pef_model.specs.declared.hypercall.Row.{Row};
    ghost use Rattle.pef_model.specs.Hypercalls.{IsTable};

    ghost Value = { List Row };

    ghost view = { λ table. table.rows };

    ghost invariant = { λ table. IsTable table.rows };

    ghost inverse = { λ rows. record { rows = rows } };
}

impl<const N: usize> Table<N> {
    /// The table of these rows, of which there are at most 64.
    ///
    /// None exactly where the numbers don't rise strictly, or a row's first register isn't R4, or it has more than nine inputs
    /// or more than nine outputs.
    pub fn of(rows: [Row; N]) -> Option<Table<N>>
        requires { N ≤ 64 }
        ensures accepted { IsSome result ↔ IsTable rows.entry }
        ensures rows { IfSome result (λ table. table ≡ rows.entry) }
    {
        for i in 0..N {
            if !is_row(&rows[i]) {
                return None;
            }
            if i > 0 && rows[i].number <= rows[i - 1].number {
                return None;
            }
        }
        Some(Table { rows })
    }

    /// The row of a number, which a caller has in R3. None exactly where no row has the number.
    pub fn row(&self, number: u64) -> Option<Row>
        ensures row { result ≡ row_of self.now number }
        ensures whole { IfSome result IsRow }
    {
        row_in(&self.rows, number).copied()
    }
}

// The first row of a number.
fn row_in(rows: &[Row], number: u64) -> Option<&Row>
    ensures { option_map (λ row. row.now) result ≡ row_of rows.now number }
{
    rows.iter().find(|row| u64::from(row.number) == number)
}

// Whether a row names registers from R4 to R12 alone.
fn is_row(row: &Row) -> bool
    ensures { IsTrue result ↔ IsRow row.now }
{
    row.first == 4 && row.inputs <= 9 && row.outputs <= 9
}

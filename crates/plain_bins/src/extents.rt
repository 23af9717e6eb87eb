// The least and the greatest number of a field.
ghost use Rattle.std.specs.Prelude.{◌≡◌, ◌≤◌, ◌≤ℤ◌, ◌*◌, pos, Some};
ghost use Rattle.std.specs.Int.{int_min, int_max};
ghost use Rattle.fixed_num.specs.Number.{million};
ghost use Rattle.cell_value.specs.Cell.{number_in};
ghost use Rattle.cell_value.specs.State.{greatest_id};
ghost use Rattle.cell_value.specs.Datum.{cell_at};
ghost use Rattle.plain_rows.specs.Rows.{AreRows};
ghost use Rattle.plain_bins.specs.Extents.{numbers_of, extent_of};
ghost use Rattle.plain_bins.specs.inner.Wider.{widened, wider};

use cell_value::Keyed;
use fixed_num::Num;

// The id of a row as a number.
fn id_number(id: u64) -> Option<Num>
    requires { id ≤ greatest_id }
    ensures { result ≡ Some (pos (id * million)) }
{
    Num::of_millionths(i128::from(id) * 1_000_000)
}

/// The number that a row reads under a name; None where it reads none.
pub fn number_under(row: &Keyed, name: &str) -> Option<Num>
    requires { row.now.key.id ≤ greatest_id }
    ensures { result ≡ number_in (cell_at row.now name.now) }
{
    if name == "_vgsid_" {
        return id_number(row.key.id);
    }
    match row.row.get(name) {
        Some(cell) => cell.number(),
        None => None,
    }
}

/// The lesser of two numbers.
pub fn lesser(a: Num, b: Num) -> Num
    ensures value { result ≡ int_min a b }
    ensures within { result ≤ℤ b }
{
    if b < a { b } else { a }
}

/// The greater of two numbers.
pub fn greater(a: Num, b: Num) -> Num
    ensures value { result ≡ int_max a b }
    ensures from { b ≤ℤ result }
{
    if a < b { b } else { a }
}

// An extent that takes in a number too.
fn with_number(found: Option<(Num, Num)>, number: Num) -> (Num, Num)
    ensures { Some result ≡ widened found number }
{
    match found {
        Some((low, high)) => (lesser(low, number), greater(high, number)),
        None => (number, number),
    }
}

// An extent that takes in the number of a row too, where it has one.
fn with_row(found: Option<(Num, Num)>, row: &Keyed, name: &str) -> Option<(Num, Num)>
    requires { row.now.key.id ≤ greatest_id }
    ensures { result ≡ wider found (number_in (cell_at row.now name.now)) }
{
    match number_under(row, name) {
        Some(number) => Some(with_number(found, number)),
        None => found,
    }
}

/// The least and the greatest number that the rows read under a name; None exactly where none reads a number. Their keys rise, their
/// ids are at most 10^15, and there are at most 1,600,000 of them.
pub fn extent_of(rows: &[Keyed], name: &str) -> Option<(Num, Num)>
    requires { AreRows rows.now }
    ensures { result ≡ extent_of (numbers_of cell_at name.now rows.now) }
{
    let mut found = None;
    for row in rows {
        found = with_row(found, row, name);
    }
    found
}

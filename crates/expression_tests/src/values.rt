// Expressions over a row of what isn't there: parameters, selections and the domains of scales. What all else gives is shown by whole runs.
ghost use Rattle.std.specs.Prelude.{◌≡◌, ◌≤◌, IfOk};
ghost use Rattle.cell_value.specs.State.{greatest_id};

use cell_value::{Cell, Key, Keyed, Row, Steps};
use expr_eval::{EvalError, NoParams, PlainRow, RowReader, eval};
use expr_syntax::{Expr, ExprError, read};
use fixed_num::Num;
use std::alloc::Global;
use std::marker::Brand;
use std::sync::ledger::{Blank, Ledger};
use text_kit::{OutOfMemory, Text};

/// Expressions and their values over the row 7 with 1.5 under `a` and the text x under `b`; none where a text is no expression.
const EXPRESSIONS: &str = "\
datum._vgsid_ => 7\n\
least => null\n\
brush.x => null\n\
vlSelectionTest('brush_store', datum) => false\n\
length(data('brush_store')) => 0\n\
domain('x').length => 0";

fn counted<L: Ledger, R: RowReader>(
    alloc: Global,
    e: &Expr,
    row: &R,
    blank: Blank,
) -> Result<Cell, EvalError>
    requires name { blank.name ≡ L.name }
    requires parts { blank.parts ≡ L.parts }
{
    let mut steps = Steps::<L>::open(blank);
    eval(alloc, e, row, &NoParams, &mut steps)
}

fn value_over<R: RowReader>(alloc: Global, e: &Expr, row: &R) -> Result<Cell, EvalError> {
    counted::<Brand, R>(alloc, e, row, Blank::new(1))
}

// A text behind a quote.
fn quoted(alloc: Global, text: &Text) -> Result<Text, OutOfMemory> {
    let mut word = Text::of(alloc, "'")?;
    word.push_str(text.as_str())?;
    Ok(word)
}

// The word of a value.
fn word_of_cell(alloc: Global, cell: &Cell) -> Result<Text, OutOfMemory> {
    match cell {
        Cell::Text(text) => quoted(alloc, text),
        _ => cell.display(alloc),
    }
}

// The word of an answer.
fn word_of(alloc: Global, answer: Result<Cell, EvalError>) -> Result<Text, OutOfMemory> {
    match answer {
        Ok(cell) => word_of_cell(alloc, &cell),
        Err(EvalError::Overflow) => Text::of(alloc, "overflow"),
        Err(EvalError::Memory) => Err(OutOfMemory),
    }
}

// The cells of that row.
fn cells_of_seven(alloc: Global, row: &mut Row) -> Result<(), OutOfMemory> {
    if let Ok(number) = Num::read_decimal(b"1.5") {
        row.set(Text::of(alloc, "a")?, Cell::Number(number))?;
    }
    let text = Text::of(alloc, "x")?;
    row.set(Text::of(alloc, "b")?, Cell::Text(text))
}

// The row 7 with 1.5 under `a` and the text x under `b`.
fn row_seven(alloc: Global) -> Result<Keyed, OutOfMemory>
    ensures { IfOk result (λ row. row.key.id ≤ greatest_id) }
{
    let mut row = Row::new(alloc)?;
    cells_of_seven(alloc, &mut row)?;
    let key = Key { id: 7, branch: 0 };
    Ok(Keyed { key, row })
}

// The word of what an expression gives over a row.
fn word_over(alloc: Global, e: &Expr, row: &Keyed) -> Result<Text, OutOfMemory>
    requires { row.now.key.id ≤ greatest_id }
{
    word_of(alloc, value_over(alloc, e, &PlainRow::of(row)))
}

// The word of what a text gives over a row.
fn word_of_text(alloc: Global, text: &str, row: &Keyed) -> Result<Text, OutOfMemory>
    requires { row.now.key.id ≤ greatest_id }
{
    match read(alloc, text) {
        Ok(e) => {
            let word = word_over(alloc, &e, row);
            drop(e);
            word
        }
        Err(ExprError::Shape) => Text::of(alloc, "none"),
        Err(ExprError::Memory) => Err(OutOfMemory),
    }
}

// Whether the text of a line gives the line's value over a row.
fn gives_over(alloc: Global, line: &str, row: &Keyed) -> bool
    requires { row.now.key.id ≤ greatest_id }
{
    let Some((text, want)) = line.split_once(" => ") else {
        return false;
    };
    match word_of_text(alloc, text, row) {
        Ok(word) => word.as_str() == want,
        Err(_) => false,
    }
}

// Whether it does over the row 7.
fn gives(alloc: Global, line: &str) -> bool {
    match row_seven(alloc) {
        Ok(row) => gives_over(alloc, line, &row),
        Err(_) => false,
    }
}

#[test]
fn expressions_over_a_row(rt: HostRuntime) {
    for line in EXPRESSIONS.lines() {
        assert!(rt; gives(rt.alloc(), line), "{line}");
    }
}

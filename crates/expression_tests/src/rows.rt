// Filters, calculations and units of time over rows without cells whose ids are 1, 2 and 10^15. A line puts values under names, one
// after the other, or the start and the end of a time unit of a field under two, and ends in a test with the ids of the rows that it
// keeps, which were found apart.
ghost use Rattle.std.specs.Prelude.{◌≡◌, IfOk};
ghost use Rattle.plain_rows.specs.Rows.{AreRows};

use case_table::time_unit_of;
use cell_value::{Key, Keyed, Row, Rows, SharedText};
use expr_eval::{EvalError, NoParams};
use expr_syntax::{Expr, ExprError, read};
use plain_rows::{TimeOf, calculate, filter, time_unit};
use std::alloc::Global;
use text_kit::{OutOfMemory, Seq, Text};

const LINES: &str = "\
true => 1 2 1000000000000000\n\
false =>\n\
null =>\n\
datum.absent =>\n\
!datum.absent => 1 2 1000000000000000\n\
0 =>\n\
-0.000001 => 1 2 1000000000000000\n\
'' =>\n\
'0' => 1 2 1000000000000000\n\
[0, 0] => 1 2 1000000000000000\n\
datum._vgsid_ > 1 => 2 1000000000000000\n\
datum._vgsid_ == 1 || datum._vgsid_ == 1000000000000000 => 1 1000000000000000\n\
datum._vgsid_ + 1 > 0 => overflow\n\
datum._vgsid_ < 3 && datum._vgsid_ + 1 > 0 => 1 2\n\
a = datum._vgsid_ + 1; true => overflow\n\
a = if(datum._vgsid_ < 3, datum._vgsid_ * 2, null); datum.a == 4 => 2\n\
a = if(datum._vgsid_ < 3, datum._vgsid_ * 2, null); datum.a == null => 1000000000000000\n\
a = datum._vgsid_; a = datum.a / 2; datum.a * 2 == datum._vgsid_ => 1 2 1000000000000000\n\
a = 7; b = datum.a; a = 'x'; datum.a == 'x' && datum.b == 7 => 1 2 1000000000000000\n\
a = datum.a; datum.a == null => 1 2 1000000000000000\n\
a = if(datum._vgsid_ == 1, '', if(datum._vgsid_ == 2, [0, 0], 0)); datum.a => 2\n\
_vgsid_ = 7; datum._vgsid_ == 7 =>\n\
_vgsid_ = 7; datum._vgsid_ == 2 => 2\n\
_vgsid_ = datum._vgsid_ + 1; true => overflow\n\
a = b; datum.a == null => 1 2 1000000000000000\n\
at = utc(2024, 1, 29, 13); unit month at a b; datum.a == utc(2012, 1) && datum.b == utc(2012, 2) => 1 2 1000000000000000\n\
at = utc(2024, 1, 29, 13); unit yearmonth at a b; datum.a == utc(2024, 1) && datum.b == utc(2024, 2) => 1 2 1000000000000000\n\
at = utc(2024, 1, 29, 13); unit utcdate at a b; datum.a == utc(2012, 0, 29) && datum.b == utc(2012, 0, 30) => 1 2 1000000000000000\n\
at = -0.5; unit seconds at a b; datum.a == utc(2012, 0, 1, 0, 0, 59) && datum.b == utc(2012, 0, 1, 0, 1) => 1 2 1000000000000000\n\
at = 253370764799999; unit year at a b; datum.b == datum.at + 1 => 1 2 1000000000000000\n\
at = 253370764800000; unit year at a b; datum.a == null && datum.b == null => 1 2 1000000000000000\n\
a = 7; at = 'x'; unit year at a b; datum.a == null && datum.b == null && datum.at == 'x' => 1 2 1000000000000000\n\
unit year absent a b; datum.a == null && datum.b == null => 1 2 1000000000000000\n\
unit year at a a; datum.a == null => 1 2 1000000000000000\n\
at = 0; unit year at a a; datum.a == utc(1971, 0) => 1 2 1000000000000000\n\
at = utc(1970, 5); unit year at at b; datum.at == 0 && datum.b == utc(1971, 0) => 1 2 1000000000000000\n\
unit year _vgsid_ a b; datum.a == 0 && datum.b == utc(1971, 0) => 1 2\n\
at = 0; unit year at _vgsid_ b; datum._vgsid_ == 1 && datum.b == utc(1971, 0) => 1\n";

fn bare(alloc: Global, id: u64) -> Result<Keyed, OutOfMemory>
    ensures { IfOk result (λ keyed. keyed.key ≡ record { id = id; branch = 0 }) }
{
    Ok(Keyed {
        key: Key { id, branch: 0 },
        row: Row::new(alloc)?,
    })
}

#[tactic(auto, using(crate::proofs::TestRows::three_are_rows))]
fn three_rows(alloc: Global) -> Result<Rows, OutOfMemory>
    ensures { IfOk result AreRows }
{
    let mut rows = Seq::new(alloc);
    rows.push(bare(alloc, 1)?)?;
    rows.push(bare(alloc, 2)?)?;
    rows.push(bare(alloc, 1_000_000_000_000_000)?)?;
    Ok(rows)
}

// Why a line has no answer.
enum TestStop {
    Shape,
    Overflow,
    Memory,
}

impl From<OutOfMemory> for TestStop {
    fn from(_: OutOfMemory) -> TestStop {
        TestStop::Memory
    }
}

impl From<EvalError> for TestStop {
    fn from(e: EvalError) -> TestStop {
        match e {
            EvalError::Overflow => TestStop::Overflow,
            EvalError::Memory => TestStop::Memory,
        }
    }
}

impl From<ExprError> for TestStop {
    fn from(e: ExprError) -> TestStop {
        match e {
            ExprError::Shape => TestStop::Shape,
            ExprError::Memory => TestStop::Memory,
        }
    }
}

fn expression(alloc: Global, text: &str) -> Result<Expr, TestStop> {
    Ok(read(alloc, text)?)
}

// A time unit of a field.
fn time_by(
    alloc: Global,
    unit: u16,
    field: &str,
    out: &str,
    out_end: &str,
) -> Result<TimeOf, OutOfMemory> {
    let field = Text::of(alloc, field)?;
    let out = SharedText::of(alloc, out)?;
    Ok(TimeOf {
        field,
        unit,
        out,
        out_end: SharedText::of(alloc, out_end)?,
    })
}

// A time unit of a field, in words: its name, the field, and the names of the start and the end.
fn time_of(alloc: Global, words: &str) -> Result<TimeOf, TestStop> {
    let mut words = words.split(' ');
    let (Some(name), Some(field), Some(out), Some(out_end)) = (
        words.next(),
        words.next(),
        words.next(),
        words.next(),
    ) else {
        return Err(TestStop::Shape);
    };
    match time_unit_of(name) {
        Some(unit) => Ok(time_by(alloc, unit, field, out, out_end)?),
        None => Err(TestStop::Shape),
    }
}

// The rows with a time unit of a field.
fn in_units(alloc: Global, rows: &Rows, words: &str) -> Result<Rows, TestStop>
    requires { AreRows rows.now }
    ensures { IfOk result AreRows }
{
    let t = time_of(alloc, words)?;
    Ok(time_unit(alloc, rows, &t)?)
}

// The rows with what an expression gives.
fn calculated(alloc: Global, rows: &Rows, e: &Expr, name: &str) -> Result<Rows, TestStop>
    requires { AreRows rows.now }
    ensures { IfOk result AreRows }
{
    Ok(calculate(alloc, rows, e, name, &NoParams)?)
}

// The rows with what the expression of a text gives.
fn with_value(alloc: Global, rows: &Rows, text: &str, name: &str) -> Result<Rows, TestStop>
    requires { AreRows rows.now }
    ensures { IfOk result AreRows }
{
    let e = expression(alloc, text)?;
    let rows = calculated(alloc, rows, &e, name);
    drop(e);
    rows
}

// The rows that pass a test.
fn passing(alloc: Global, rows: &Rows, test: &Expr) -> Result<Rows, TestStop>
    requires { AreRows rows.now }
    ensures { IfOk result AreRows }
{
    Ok(filter(alloc, rows, test, &NoParams)?)
}

// The rows that pass the test of a text.
fn filtered(alloc: Global, rows: &Rows, text: &str) -> Result<Rows, TestStop>
    requires { AreRows rows.now }
    ensures { IfOk result AreRows }
{
    let test = expression(alloc, text)?;
    let rows = passing(alloc, rows, &test);
    drop(test);
    rows
}

// The rows after one step.
fn stepped(alloc: Global, rows: &Rows, step: &str) -> Result<Rows, TestStop>
    requires { AreRows rows.now }
    ensures { IfOk result AreRows }
{
    if let Some(words) = step.strip_prefix("unit ") {
        return in_units(alloc, rows, words);
    }
    match step.split_once(" = ") {
        Some((name, text)) => with_value(alloc, rows, text, name),
        None => filtered(alloc, rows, step),
    }
}

fn answered(alloc: Global, steps: &str) -> Result<Rows, TestStop> {
    let mut rows = three_rows(alloc)?;
    for step in steps.split("; ") {
        rows = stepped(alloc, &rows, step)?;
    }
    Ok(rows)
}

// Adds the id of a row, behind a blank.
fn push_id(alloc: Global, out: &mut Text, row: &Keyed) -> Result<(), OutOfMemory> {
    out.push_str(format!(in alloc; " {}", row.key.id)?.as_str())
}

// The ids of rows, each behind a blank.
fn ids(alloc: Global, rows: &[Keyed]) -> Result<Text, OutOfMemory> {
    let mut out = Text::new(alloc);
    for row in rows {
        push_id(alloc, &mut out, row)?;
    }
    Ok(out)
}

fn word_of(alloc: Global, answer: Result<Rows, TestStop>) -> Result<Text, OutOfMemory> {
    match answer {
        Ok(rows) => ids(alloc, rows.as_slice()),
        Err(TestStop::Shape) => Text::of(alloc, " unread"),
        Err(TestStop::Overflow) => Text::of(alloc, " overflow"),
        Err(TestStop::Memory) => Err(OutOfMemory),
    }
}

// Whether the steps of a line give its answer.
fn gives(alloc: Global, line: &str) -> bool {
    let Some((steps, want)) = line.split_once(" =>") else {
        return false;
    };
    match word_of(alloc, answered(alloc, steps)) {
        Ok(word) => word.as_str() == want,
        Err(_) => false,
    }
}

#[test]
fn rows_are_filtered_and_calculated(rt: HostRuntime) {
    for line in LINES.lines() {
        assert!(rt; gives(rt.alloc(), line), "{line}");
    }
}

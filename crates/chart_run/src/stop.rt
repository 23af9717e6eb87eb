//! Why a run ends without its whole output.
ghost use Rattle.std.specs.Prelude.{◌≡◌, ◌∷◌, [], ◌++◌, codes, IfOk};
ghost use Rattle.std.specs.Fmt.{decimal};
ghost use Rattle.json_exact.specs.Writing.{quoted};
ghost use Rattle.chart_run.specs.declared.stop.RunStop.TheVariants.{Memory};
ghost use Rattle.chart_run.specs.Refusals.{kind_name, refusal_status, refusal_text};
ghost use Rattle.chart_run.specs.inner.Stops.{stop_at};

use chart_opening::{OpenStop, Refusal};
use json_exact::Json;
use spec_schema::SpecKind;
use std::alloc::{AllocError, AllocFailed, Global};
use text_kit::{OutOfMemory, Text};

/// Why a run ends without its whole output.
#[derive(Debug, Drop)]
pub enum RunStop {
    /// The words are no form of words.
    Words,
    /// Files are refused.
    Refused(Refusal),
    /// A read failed.
    Read,
    /// A write failed.
    Write,
    /// Memory was refused.
    Memory,
    /// More bytes of the script were taken than a script may have.
    ScriptSize,
}

impl From<OutOfMemory> for RunStop {
    ghost from_gives = { λ _ e. e ≡ Memory };

    fn from(_: OutOfMemory) -> RunStop {
        RunStop::Memory
    }
}

impl From<AllocError> for RunStop {
    ghost from_gives = { λ _ e. e ≡ Memory };

    fn from(_: AllocError) -> RunStop {
        RunStop::Memory
    }
}

impl<T: Drop> From<AllocFailed<T>> for RunStop {
    ghost from_gives = { λ _ e. e ≡ Memory };

    fn from(_: AllocFailed<T>) -> RunStop {
        RunStop::Memory
    }
}

/// Why a run stops where opening stops so.
pub fn stop_at(cause: OpenStop) -> RunStop
    ensures { result ≡ stop_at cause }
{
    match cause {
        OpenStop::Refused(why) => RunStop::Refused(why),
        OpenStop::Read => RunStop::Read,
        OpenStop::Memory => RunStop::Memory,
    }
}

/// The status of a run over files that are refused.
pub fn refusal_status(why: &Refusal) -> u8
    ensures { result ≡ refusal_status why.now }
{
    match why {
        Refusal::Missing(_) => 2,
        Refusal::Json(_, _) => 3,
        Refusal::Spec(_, _) => 4,
        Refusal::Row(_, _, _) => 5,
        Refusal::Overflow => 6,
        Refusal::Size(_) | Refusal::Rows => 10,
        Refusal::Panels(_) => 11,
    }
}

// The name of a kind of fault.
fn kind_name(kind: SpecKind) -> &'static str
    ensures { result.now ≡ kind_name kind }
{
    match kind {
        SpecKind::Unsupported => "unsupported",
        SpecKind::Missing => "missing",
        SpecKind::Wrong => "wrong",
    }
}

// The line of a cause and the name of a file.
fn name_line(alloc: Global, cause: &str, name: &Text) -> Result<Text, OutOfMemory>
    ensures { IfOk result (λ text. text ≡ cause.now ++ name.now ++ codes "\n") }
{
    let mut text = Text::of(alloc, cause)?;
    text.push_str(name.as_str())?;
    text.push_str("\n")?;
    Ok(text)
}

// The line of a fault of a specification.
fn spec_line(alloc: Global, kind: SpecKind, path: &Text) -> Result<Text, OutOfMemory>
    ensures { IfOk result (λ text. text ≡ codes "chart: spec " ++ kind_name kind ++ codes " " ++ path.now ++ codes "\n") }
{
    let mut text = Text::of(alloc, "chart: spec ")?;
    text.push_str(kind_name(kind))?;
    text.push_str(" ")?;
    text.push_str(path.as_str())?;
    text.push_str("\n")?;
    Ok(text)
}

// A text as a JSON text.
fn quoted(alloc: Global, text: &Text) -> Result<Text, OutOfMemory>
    ensures { IfOk result (λ json. json ≡ quoted text.now) }
{
    json_exact::write(alloc, &Json::Text(text.copy()?))
}

// The line where a row of a source is bad.
fn row_line(alloc: Global, source: &Text, row: u64, field: &Text) -> Result<Text, OutOfMemory>
    ensures { IfOk result (λ text. text
        ≡ codes "chart: row " ++ quoted source.now ++ codes " " ++ decimal row ++ codes " " ++ quoted field.now ++ codes "\n") }
{
    let mut digits = itoa::Buffer::new();
    let source = quoted(alloc, source)?;
    let field = quoted(alloc, field)?;
    let mut text = Text::of(alloc, "chart: row ")?;
    text.push_str(source.as_str())?;
    text.push_str(" ")?;
    text.push_str(digits.format(row))?;
    text.push_str(" ")?;
    text.push_str(field.as_str())?;
    text.push_str("\n")?;
    Ok(text)
}

// The line where a file is no JSON text.
fn json_line(alloc: Global, name: &Text, at: u64) -> Result<Text, OutOfMemory>
    ensures { IfOk result (λ text. text ≡ codes "chart: json " ++ name.now ++ codes " at " ++ decimal at ++ codes "\n") }
{
    let mut digits = itoa::Buffer::new();
    let mut text = Text::of(alloc, "chart: json ")?;
    text.push_str(name.as_str())?;
    text.push_str(" at ")?;
    text.push_str(digits.format(at))?;
    text.push_str("\n")?;
    Ok(text)
}

// The line where a chart has too many plots in facets.
fn panels_line(alloc: Global, count: u64) -> Result<Text, OutOfMemory>
    ensures { IfOk result (λ text. text ≡ codes "chart: panels " ++ decimal count ++ codes "\n") }
{
    let mut digits = itoa::Buffer::new();
    let mut text = Text::of(alloc, "chart: panels ")?;
    text.push_str(digits.format(count))?;
    text.push_str("\n")?;
    Ok(text)
}

/// The line that says why files are refused.
pub fn refusal_line(alloc: Global, why: &Refusal) -> Result<Text, OutOfMemory>
    ensures { IfOk result (λ text. text ≡ refusal_text why.now ++ 10 ∷ []) }
{
    match why {
        Refusal::Missing(name) => name_line(alloc, "chart: missing ", name),
        Refusal::Size(name) => name_line(alloc, "chart: size ", name),
        Refusal::Json(name, at) => json_line(alloc, name, *at),
        Refusal::Spec(kind, path) => spec_line(alloc, *kind, path),
        Refusal::Row(source, row, field) => row_line(alloc, source, *row, field),
        Refusal::Rows => Text::of(alloc, "chart: size rows\n"),
        Refusal::Overflow => Text::of(alloc, "chart: overflow\n"),
        Refusal::Panels(count) => panels_line(alloc, *count),
    }
}

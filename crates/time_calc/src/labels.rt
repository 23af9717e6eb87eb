//! The labels of instants.
ghost use Rattle.std.specs.Prelude.{◌≡◌, ◌+◌, ◌%◌, [], ◌∷◌, ◌++◌, ◌≤ℤ◌, ◌==◌, encode_utf8, OnOk, false};
ghost use Rattle.std.specs.Str.{chars};
ghost use Rattle.std.specs.Option.{is_some};
ghost use Rattle.std.specs.List.{list_any};
ghost use Rattle.text_kit.specs.Answer.{GivesAs};
ghost use Rattle.time_calc.specs.declared.labels.LabelError.TheVariants.{Memory};
ghost use Rattle.time_calc.specs.Instants.{first_instant, last_instant};
ghost use Rattle.time_calc.specs.Labels.{digits, pieces, label, is_pattern, cause};
ghost use Rattle.time_calc.specs.inner.Labels.{written_text, text_of, Adds, Labels, IsAfter};

use crate::directives::{Written, directive_of, written_by};
use crate::instants::instant_at;
use fixed_num::Num;
use std::alloc::Global;
use text_kit::{OutOfMemory, Text};

/// Why there is no label.
#[derive(Clone, Copy, Debug, PartialEq, Eq)]
pub enum LabelError {
    /// A percent sign of the pattern begins no directive.
    Pattern,
    /// The number is out of the range of instants.
    Instant,
    /// Memory was refused.
    Memory,
}

impl From<OutOfMemory> for LabelError {
    ghost from_gives = { λ _ e. e ≡ Memory };

    fn from(_: OutOfMemory) -> LabelError {
        LabelError::Memory
    }
}

/// Adds a character.
fn push_char(out: &mut Text, c: char) -> Result<(), OutOfMemory>
    ensures { OnOk result (out.new ≡ out.old ++ encode_utf8 c) }
{
    let mut buffer = [0u8; 4];
    out.push_str(c.encode_utf8(&mut buffer))
}

/// Adds the last digit of a number.
fn push_digit(out: &mut Text, number: u32) -> Result<(), OutOfMemory>
    ensures { OnOk result (out.new ≡ out.old ++ (48 + number % 10) ∷ []) }
{
    push_char(out, char::from(b'0' + (number % 10) as u8))
}

/// Adds the last so many digits of a number.
#[tactic(auto, using(crate::proofs::LabelLemmas::last_digit, crate::proofs::LabelLemmas::no_digit))]
fn push_digits(out: &mut Text, places: u32, number: u32) -> Result<(), OutOfMemory>
    ensures { OnOk result (out.new ≡ out.old ++ digits places number) }
{
    if places == 0 {
        return Ok(());
    }
    push_digits(out, places - 1, number / 10)?;
    push_digit(out, number)
}

/// Adds what a directive writes.
fn push_written(out: &mut Text, written: Written) -> Result<(), OutOfMemory>
    ensures { OnOk result (out.new ≡ out.old ++ written_text written) }
{
    match written {
        Written::Digits(places, number) => push_digits(out, places, number),
        Written::Name(name) => out.push_str(name),
    }
}

/// Adds what a character of a pattern adds to the label of an instant; whether it is a percent sign that the next one belongs to.
#[tactic(auto, unfolding(crate::specs::inner::Labels::text_of, crate::specs::Labels::pieces))]
fn push_piece(
    out: &mut Text,
    instant: i64,
    after_percent: bool,
    c: char,
) -> Result<bool, LabelError>
    requires first { first_instant ≤ℤ instant }
    requires last { instant ≤ℤ last_instant }
    ensures { Adds instant after_percent c out.old out.new result }
{
    if after_percent {
        let Some(directive) = directive_of(c) else {
            return Err(LabelError::Pattern);
        };
        push_written(out, written_by(directive, instant))?;
        return Ok(false);
    }
    if c == '%' {
        return Ok(true);
    }
    push_char(out, c)?;
    Ok(false)
}

/// The label of an instant.
fn labelled(alloc: Global, instant: i64, pattern: &str) -> Result<Text, LabelError>
    requires first { first_instant ≤ℤ instant }
    requires last { instant ≤ℤ last_instant }
    ensures { Labels (text_of instant false (chars pattern.now)) result }
{
    let mut out = Text::new(alloc);
    let mut after_percent = false;
    for c in pattern.chars() {
        match push_piece(&mut out, instant, after_percent, c) {
            Ok(next) => after_percent = next,
            Err(error) => return Err(error),
        }
    }
    if after_percent {
        return Err(LabelError::Pattern);
    }
    Ok(out)
}

/// What a character of a pattern leaves to the next one: whether it is a percent sign that the next belongs to. None where a
/// percent sign stands before it, and it is no letter of a directive.
fn after(after_percent: bool, c: char) -> Option<bool>
    ensures { IsAfter after_percent c result }
{
    if after_percent {
        let _ = directive_of(c)?;
        Some(false)
    } else {
        Some(c == '%')
    }
}

/// Whether each percent sign of a text begins a directive.
fn directives_hold(text: &str) -> bool
    ensures { result ≡ is_some (pieces false (chars text.now)) }
{
    let mut after_percent = false;
    for c in text.chars() {
        match after(after_percent, c) {
            Some(next) => after_percent = next,
            None => return false,
        }
    }
    !after_percent
}

/// Whether a percent sign stands among bytes.
fn has_percent(bytes: &[u8]) -> bool
    ensures { result ≡ list_any (λ b. b == 37) bytes.now }
{
    bytes.iter().any(|b| *b == b'%')
}

/// Whether a text is a pattern of labels: it has a percent sign, and each of them begins a directive: `%Y`, `%m`, `%d`, `%H`, `%I`,
/// `%M`, `%S`, `%L`, `%b`, `%a`, `%B`, `%p`, `%q` or `%%`.
pub fn is_pattern(text: &str) -> bool
    ensures { result ≡ is_pattern text.now }
{
    has_percent(text.as_bytes()) && directives_hold(text)
}

/// The label of `at`, an instant in milliseconds since 1970-01-01T00:00Z, in UTC: the pattern with what its directives stand for,
/// the year (`%Y`, four digits), month, day of the month, hour, hour of twelve, minute and second (`%m %d %H %I %M %S`, two
/// digits), milliseconds (`%L`, three digits), month and day of the week in three letters (`%b %a`), month (`%B`), AM or PM
/// (`%p`), quarter (`%q`) and a percent sign (`%%`). `Pattern` exactly where another character follows a percent sign, or none;
/// else `Instant` exactly where `at` is out of the range, the years 1 to 9998.
pub fn label(alloc: Global, at: Num, pattern: &str) -> Result<Text, LabelError>
    ensures { GivesAs (λ text. text) cause result (label at pattern.now) }
{
    match instant_at(at) {
        Some(instant) => labelled(alloc, instant, pattern),
        None if directives_hold(pattern) => Err(LabelError::Instant),
        None => Err(LabelError::Pattern),
    }
}

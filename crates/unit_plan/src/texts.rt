// The words of texts.
ghost use Rattle.std.specs.Prelude.{◌≡◌, ◌++◌, [], ◌∷◌, map, if◌then◌else◌, unwrap_or, IfOk, OnOk};
ghost use Rattle.vl_spec.specs.declared.marks.Align.TheVariants as TheAligns;
ghost use Rattle.vl_spec.specs.declared.marks.Baseline.TheVariants as TheBaselines;
ghost use Rattle.vl_compose.specs.Shown.{unit_shown};
ghost use Rattle.unit_plan.specs.Branches.{covers};
ghost use Rattle.unit_plan.specs.Plans.{text_look};
ghost use Rattle.unit_plan.specs.Selections.{is_selection};
ghost use Rattle.unit_plan.specs.Texts.{format_of, words_of, words_way, no_words, words_by, words_in, plain_text, text_look_said};
ghost use Rattle.unit_plan.specs.inner.Lent.{branch_shown, branches_shown};

use crate::branches::BranchHere;
use crate::cells::cell_of;
use crate::ends::{covers, tests_beside};
use crate::lanes::branches_at;
use crate::looks::said_in;
use crate::selections::SelectionNames;
use crate::shows::field_in;
use cell_value::Cell;
use plan_kit::{CellOf, TextLook, Words, WordsWay, millionths, number_or};
use std::alloc::Global;
use text_kit::{Copies, OutOfMemory, Seq, Text};
use vl_compose::UnitHere;
use vl_normalize::TEXT;
use vl_spec::{Align, Baseline, Definition, MarkDefinition};

// The format that a definition gives its words.
fn format_of(alloc: Global, definition: &Definition) -> Result<Option<Text>, OutOfMemory>
    ensures { IfOk result (λ format. format ≡ format_of definition.now) }
{
    match field_in(definition) {
        Some(of) => Copies::copied(&of.format, alloc),
        None => Ok(None),
    }
}

// The words of a definition.
fn words_of(alloc: Global, definition: &Definition) -> Result<Words, OutOfMemory>
    ensures { IfOk result (λ words. words ≡ words_of definition.now) }
{
    let format = format_of(alloc, definition)?;
    Ok(Words {
        cell: cell_of(alloc, TEXT, definition)?,
        format,
    })
}

// The words of a branch.
fn words_way(
    alloc: Global,
    names: &SelectionNames,
    branch: &BranchHere,
) -> Result<WordsWay, OutOfMemory>
    ensures { IfOk result (λ way. way ≡ words_way (is_selection names.now.params.now) (branch_shown branch.now)) }
{
    let gives = words_of(alloc, branch.shows)?;
    let (gives, test) = tests_beside(alloc, names, gives, branch)?;
    Ok(WordsWay { test, gives })
}

// Adds the words of branches.
fn push_words(
    alloc: Global,
    names: &SelectionNames,
    branches: &[BranchHere],
    out: &mut Seq<WordsWay>,
) -> Result<(), OutOfMemory>
    ensures { OnOk result (out.new ≡ out.old ++ map (words_way (is_selection names.now.params.now)) (branches_shown branches.now)) }
{
    for branch in branches {
        out.push(words_way(alloc, names, branch)?)?;
    }
    Ok(())
}

// The empty words.
fn no_words(alloc: Global) -> WordsWay
    ensures { result ≡ no_words }
{
    WordsWay {
        test: None,
        gives: Words {
            cell: CellOf::Written(Cell::Text(Text::new(alloc))),
            format: None,
        },
    }
}

// Adds the empty words where no branch counts for each row.
fn push_empty(
    alloc: Global,
    branches: &[BranchHere],
    out: &mut Seq<WordsWay>,
) -> Result<(), OutOfMemory>
    ensures { OnOk result (out.new ≡ out.old ++ (if covers (branches_shown branches.now) then [] else no_words ∷ [])) }
{
    if covers(branches) {
        Ok(())
    } else {
        out.push(no_words(alloc))
    }
}

// The words of some branches, and the empty words where none counts.
fn words_by(
    alloc: Global,
    names: &SelectionNames,
    branches: &[BranchHere],
) -> Result<Seq<WordsWay>, OutOfMemory>
    ensures { IfOk result (λ words. words ≡ words_by (is_selection names.now.params.now) (branches_shown branches.now)) }
{
    let mut out = Seq::new(alloc);
    push_words(alloc, names, branches, &mut out)?;
    push_empty(alloc, branches, &mut out)?;
    Ok(out)
}

/// The words of a unit.
pub(crate) fn words_in(
    alloc: Global,
    names: &SelectionNames,
    unit: &UnitHere,
) -> Result<Seq<WordsWay>, OutOfMemory>
    ensures { IfOk result (λ words. words ≡ words_in (is_selection names.now.params.now) (unit_shown unit.now)) }
{
    let branches = branches_at(alloc, unit.channels.as_slice(), TEXT)?;
    words_by(alloc, names, branches.as_slice())
}

// How words stand where nothing is said of them.
fn plain_text() -> TextLook
    ensures { result ≡ plain_text }
{
    TextLook {
        align: Align::Center,
        baseline: Baseline::Middle,
        dx: millionths(0),
        dy: millionths(0),
        size: millionths(11_000_000),
    }
}

// Which part of words stands at their place.
fn align_said(said: Option<Align>) -> Align
    ensures { result ≡ unwrap_or said TheAligns.Center }
{
    match said {
        Some(align) => align,
        None => Align::Center,
    }
}

// Which line of words stands at their place.
fn baseline_said(said: Option<Baseline>) -> Baseline
    ensures { result ≡ unwrap_or said TheBaselines.Middle }
{
    match said {
        Some(baseline) => baseline,
        None => Baseline::Middle,
    }
}

// How words stand by what a mark says.
fn text_look_said(of: &MarkDefinition) -> TextLook
    ensures { result ≡ text_look_said of.now }
{
    TextLook {
        align: align_said(of.align),
        baseline: baseline_said(of.baseline),
        dx: number_or(of.dx, millionths(0)),
        dy: number_or(of.dy, millionths(0)),
        size: number_or(of.font_size, millionths(11_000_000)),
    }
}

/// How the words of a unit stand.
pub(crate) fn text_look(unit: &UnitHere) -> TextLook
    ensures { result ≡ text_look (unit_shown unit.now) }
{
    match said_in(unit.mark) {
        Some(of) => text_look_said(of),
        None => plain_text(),
    }
}

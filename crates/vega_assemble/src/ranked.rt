// The rows by which the cells of a scale stand in an order by rows.
ghost use Rattle.std.specs.Prelude.{◌≡◌, ◌++◌, ◌∷◌, [], map, length, codes, IfOk, OnOk};
ghost use Rattle.std.specs.List.{enumerate_from};
ghost use Rattle.expr_syntax.specs.declared.expr.Expr.TheVariants as expr;
ghost use Rattle.plan_kit.specs.declared.cells.CellOf.TheVariants as shows;
ghost use Rattle.vega_spec.specs.declared.transforms.Transform.TheVariants as vega;
ghost use Rattle.vega_assemble.specs.Cells.{field_expr};
ghost use Rattle.vega_assemble.specs.Names.{key_column, rank_column};
ghost use Rattle.vega_assemble.specs.Ranked.{formula, cell_formula, rank_formula, numbers_rows, given_in, cells_alone, found_in, told_by};
ghost use Rattle.vega_assemble.specs.Ranked.{number_found, with_code, numbers_text, steps_to_key, are_some, key_steps, key_name};
ghost use Rattle.vega_assemble.specs.Ranked.{codes_list, codes_lists, column_steps, lacks_key, not_all, kept_in, rank_step, ranks_steps, ranks_list};

use crate::exprs::{cell_expr, field_expr};
use crate::names::{begun_name, cell_column, codes_name, key_column, rank_column, ranks_name};
use crate::ranks::{counts, over_none};
use crate::several::{copied_text, copied_texts, one_of};
use crate::sources::list_made;
use cell_value::Cell;
use expr_syntax::{BinOp, Expr};
use plan_kit::{CellOf, RowsOrder, binary, joined};
use std::alloc::Global;
use text_kit::{Boxed, OutOfMemory, Seq, Text};
use vega_spec::{Aggregate, DataSet, Filter, Formula, Lookup, Transform, Window};

/// The code of `row_number` among the operations.
const ROW_NUMBER: u16 = 12;

// ---- steps

/// A formula.
pub(crate) fn formula(name: Text, e: Expr) -> Transform
    ensures { result ≡ formula name e }
{
    Transform::Formula(Formula { expr: e, as_: name })
}

/// A cell of each row, in its column.
pub(crate) fn cell_formula(
    alloc: Global,
    stem: &Text,
    cell: &CellOf,
) -> Result<Transform, OutOfMemory>
    ensures { IfOk result (λ made. made ≡ cell_formula stem.now cell.now) }
{
    let name = cell_column(stem)?;
    let expr = cell_expr(alloc, cell)?;
    Ok(formula(name, expr))
}

// The field of an order by rows, in the same column.
fn field_formula(stem: &Text, field: &Text) -> Result<Transform, OutOfMemory>
    ensures { IfOk result (λ made. made ≡ cell_formula stem.now (shows.Field field.now)) }
{
    let name = cell_column(stem)?;
    let expr = field.copy().map(Expr::Field)?;
    Ok(formula(name, expr))
}

/// The rank of each row, in its column.
pub(crate) fn rank_formula(stem: &Text, e: Expr) -> Result<Transform, OutOfMemory>
    ensures { IfOk result (λ made. made ≡ rank_formula stem.now e) }
{
    let name = rank_column(stem)?;
    Ok(formula(name, e))
}

/// The number of each row under a name.
pub(crate) fn numbers_rows(alloc: Global, name: Text) -> Result<Transform, OutOfMemory>
    ensures { IfOk result (λ made. made ≡ vega.Window (numbers_rows name)) }
{
    let names = one_of(alloc, Some(name))?;
    let ops = one_of(alloc, ROW_NUMBER)?;
    let fields = one_of(alloc, None)?;
    Ok(Transform::Window(Window {
        ops,
        fields: Some(fields),
        params: None,
        as_: Some(names),
        groupby: None,
        sort: None,
        frame: None,
        ignore_peers: None,
    }))
}

/// What the operation of an order gives in each group by some fields, under a name.
pub(crate) fn given_in(
    alloc: Global,
    groupby: Seq<Text>,
    by: &RowsOrder,
    name: Text,
) -> Result<Transform, OutOfMemory>
    ensures { IfOk result (λ made. made ≡ vega.Aggregate (given_in groupby by.now name)) }
{
    let names = one_of(alloc, Some(name))?;
    let ops = one_of(alloc, by.op)?;
    let fields = one_of(alloc, copied_text(&by.field)?)?;
    Ok(Transform::Aggregate(Aggregate {
        groupby: Some(groupby),
        ops: Some(ops),
        fields: Some(fields),
        as_: Some(names),
    }))
}

// The distinct cells of a field.
fn cells_alone(alloc: Global, name: &Text) -> Result<Transform, OutOfMemory>
    ensures { IfOk result (λ made. made ≡ vega.Aggregate (cells_alone name.now)) }
{
    let groupby = one_of(alloc, name.copy()?)?;
    Ok(Transform::Aggregate(Aggregate {
        groupby: Some(groupby),
        ops: Some(Seq::new(alloc)),
        fields: Some(Seq::new(alloc)),
        as_: Some(Seq::new(alloc)),
    }))
}

/// What another list has in a column where its cell in a field there is that in a field here, under a name.
pub(crate) fn found_in(
    alloc: Global,
    set: Text,
    there: &Text,
    here: &Text,
    column: Text,
    name: Text,
    otherwise: Cell,
) -> Result<Lookup, OutOfMemory>
    ensures { IfOk result (λ made. made ≡ found_in set there.now here.now column name otherwise) }
{
    let key = there.copy()?;
    let fields = one_of(alloc, here.copy()?)?;
    let values = one_of(alloc, column)?;
    let names = one_of(alloc, name)?;
    Ok(Lookup {
        from: set,
        key,
        fields,
        values,
        as_: Some(names),
        default: Some(otherwise),
    })
}

// ---- keys

// The fields that tell rows apart.
fn told_by(alloc: Global, stem: &Text, facets: &[Text]) -> Result<Seq<Text>, OutOfMemory>
    ensures { IfOk result (λ names. names ≡ told_by stem.now facets.now) }
{
    let mut names = copied_texts(alloc, facets)?;
    names.push(cell_column(stem)?)?;
    Ok(names)
}

// The number of the cell of a field, looked up.
fn number_found(
    alloc: Global,
    stem: &Text,
    scale: usize,
    place: usize,
    field: &Text,
) -> Result<Transform, OutOfMemory>
    ensures { IfOk result (λ made. made ≡ number_found stem.now scale (place, field.now)) }
{
    let set = codes_name(alloc, stem, scale, place)?;
    let name = key_column(alloc, stem, place)?;
    let column = name.copy()?;
    found_in(alloc, set, field, field, column, name, Cell::Null).map(Transform::Lookup)
}

// Adds those of all fields.
fn push_numbers(
    alloc: Global,
    stem: &Text,
    scale: usize,
    fields: &[Text],
    out: &mut Seq<Transform>,
) -> Result<(), OutOfMemory>
    ensures { OnOk result (out.new ≡ out.old ++ map (number_found stem.now scale) (enumerate_from 0 fields.now)) }
{
    for (place, field) in fields.iter().enumerate() {
        out.push(number_found(alloc, stem, scale, place, field)?)?;
    }
    Ok(())
}

// A number as a text, with a comma behind it.
fn number_shown(alloc: Global, stem: &Text, place: usize) -> Result<(Expr, Expr), OutOfMemory>
    ensures { IfOk result (λ both. both ≡ (expr.Field (key_column stem.now place), expr.Text (codes ","))) }
{
    let comma = Text::of(alloc, ",").map(Expr::Text)?;
    let shown = key_column(alloc, stem, place).map(Expr::Field)?;
    Ok((shown, comma))
}

// A value, and these.
fn shown_beside<K: Drop>(
    alloc: Global,
    kept: K,
    stem: &Text,
    place: usize,
) -> Result<(K, (Expr, Expr)), OutOfMemory>
    ensures { IfOk result (λ both. both ≡ (kept, (expr.Field (key_column stem.now place), expr.Text (codes ",")))) }
{
    let made = number_shown(alloc, stem, place)?;
    Ok((kept, made))
}

// A text with one more number behind it.
fn with_code(alloc: Global, stem: &Text, e: Expr, place: usize) -> Result<Expr, OutOfMemory>
    ensures { IfOk result (λ made. made ≡ with_code stem.now e place) }
{
    let (e, (shown, comma)) = shown_beside(alloc, e, stem, place)?;
    let behind = binary(alloc, BinOp::Add, e, shown)?;
    binary(alloc, BinOp::Add, behind, comma)
}

// The numbers of a row as one text.
fn numbers_text(alloc: Global, stem: &Text, fields: &[Text]) -> Result<Expr, OutOfMemory>
    ensures { IfOk result (λ e. e ≡ numbers_text stem.now fields.now) }
{
    let mut e = Expr::Text(Text::new(alloc));
    for (place, _field) in fields.iter().enumerate() {
        e = with_code(alloc, stem, e, place)?;
    }
    Ok(e)
}

// The key of a row.
fn key_formula(alloc: Global, stem: &Text, fields: &[Text]) -> Result<Transform, OutOfMemory>
    ensures { IfOk result (λ made. made ≡ formula (key_column stem.now (length fields.now)) (numbers_text stem.now fields.now)) }
{
    let name = key_column(alloc, stem, fields.len())?;
    let e = numbers_text(alloc, stem, fields)?;
    Ok(formula(name, e))
}

// Adds it behind the numbers of which it is made.
fn push_to_key(
    alloc: Global,
    stem: &Text,
    scale: usize,
    fields: &[Text],
    out: &mut Seq<Transform>,
) -> Result<(), OutOfMemory>
    ensures { OnOk result (out.new ≡ out.old ++ steps_to_key stem.now scale fields.now) }
{
    push_numbers(alloc, stem, scale, fields, out)?;
    out.push(key_formula(alloc, stem, fields)?)
}

// Whether there are facets.
fn are_some(facets: &[Text]) -> bool
    ensures { result ≡ are_some facets.now }
{
    match facets {
        [] => false,
        _ => true,
    }
}

// Adds the key of a row, if it isn't its cell.
fn push_key(
    alloc: Global,
    stem: &Text,
    scale: usize,
    facets: &[Text],
    out: &mut Seq<Transform>,
) -> Result<(), OutOfMemory>
    ensures { OnOk result (out.new ≡ out.old ++ key_steps stem.now scale facets.now) }
{
    if are_some(facets) {
        let fields = told_by(alloc, stem, facets)?;
        push_to_key(alloc, stem, scale, fields.as_slice(), out)
    } else {
        Ok(())
    }
}

// The name of the key of a row.
fn key_name(alloc: Global, stem: &Text, facets: &[Text]) -> Result<Text, OutOfMemory>
    ensures { IfOk result (λ name. name ≡ key_name stem.now facets.now) }
{
    if are_some(facets) {
        let fields = told_by(alloc, stem, facets)?;
        key_column(alloc, stem, fields.as_slice().len())
    } else {
        cell_column(stem)
    }
}

// ---- lists

// The steps to the cells of a field, each with its number.
fn codes_steps(
    alloc: Global,
    stem: &Text,
    by: &RowsOrder,
    place: usize,
    field: &Text,
) -> Result<Seq<Transform>, OutOfMemory>
    ensures { IfOk result (λ steps. steps ≡ cell_formula stem.now (shows.Field by.now.cell) ∷ vega.Aggregate (cells_alone field.now)
        ∷ vega.Window (numbers_rows (key_column stem.now place)) ∷ []) }
{
    let mut out = Seq::new(alloc);
    out.push(field_formula(stem, &by.cell)?)?;
    out.push(cells_alone(alloc, field)?)?;
    out.push(numbers_rows(alloc, key_column(alloc, stem, place)?)?)?;
    Ok(out)
}

// The cells of a field, each with its number.
fn codes_list(
    alloc: Global,
    stem: &Text,
    scale: usize,
    by: &RowsOrder,
    place: usize,
    field: &Text,
) -> Result<DataSet, OutOfMemory>
    ensures { IfOk result (λ set. set ≡ codes_list stem.now scale by.now (place, field.now)) }
{
    let name = codes_name(alloc, stem, scale, place)?;
    let source = begun_name(alloc, stem, by.unit)?;
    let steps = codes_steps(alloc, stem, by, place, field)?;
    Ok(list_made(name, source, steps))
}

// Adds those of fields.
fn push_codes(
    alloc: Global,
    stem: &Text,
    scale: usize,
    by: &RowsOrder,
    fields: &[Text],
    out: &mut Seq<DataSet>,
) -> Result<(), OutOfMemory>
    ensures { OnOk result (out.new ≡ out.old ++ map (codes_list stem.now scale by.now) (enumerate_from 0 fields.now)) }
{
    for (place, field) in fields.iter().enumerate() {
        out.push(codes_list(alloc, stem, scale, by, place, field)?)?;
    }
    Ok(())
}

/// Adds those of the fields that tell rows apart, if there are facets.
pub(crate) fn push_codes_lists(
    alloc: Global,
    stem: &Text,
    scale: usize,
    facets: &[Text],
    by: &RowsOrder,
    out: &mut Seq<DataSet>,
) -> Result<(), OutOfMemory>
    ensures { OnOk result (out.new ≡ out.old ++ codes_lists stem.now scale facets.now by.now) }
{
    if are_some(facets) {
        let fields = told_by(alloc, stem, facets)?;
        push_codes(alloc, stem, scale, by, fields.as_slice(), out)
    } else {
        Ok(())
    }
}

/// Adds the steps behind the cell of a column.
pub(crate) fn push_column_steps(
    alloc: Global,
    stem: &Text,
    scale: usize,
    facets: &[Text],
    by: &RowsOrder,
    out: &mut Seq<Transform>,
) -> Result<(), OutOfMemory>
    ensures { OnOk result (out.new ≡ out.old ++ column_steps stem.now scale facets.now by.now) }
{
    out.push(rank_formula(stem, over_none(by.op))?)?;
    push_key(alloc, stem, scale, facets, out)
}

// Whether the list of a column lacks a row's key.
fn lacks_key(alloc: Global, stem: &Text, key: &Text, set: &Text) -> Result<Transform, OutOfMemory>
    ensures { IfOk result (λ made. made ≡ lacks_key stem.now key.now set.now) }
{
    let column = rank_column(stem)?;
    let name = set.copy()?;
    found_in(alloc, set.copy()?, key, key, column, name, Cell::Flag(true)).map(Transform::Lookup)
}

// Adds that of several lists.
fn push_lacks(
    alloc: Global,
    stem: &Text,
    key: &Text,
    sets: &[Text],
    out: &mut Seq<Transform>,
) -> Result<(), OutOfMemory>
    ensures { OnOk result (out.new ≡ out.old ++ map (lacks_key stem.now key.now) sets.now) }
{
    for set in sets {
        out.push(lacks_key(alloc, stem, key, set)?)?;
    }
    Ok(())
}

// The fields of these names.
fn all_fields(alloc: Global, names: &[Text]) -> Result<Seq<Expr>, OutOfMemory>
    ensures { IfOk result (λ es. es ≡ map expr.Field names.now) }
{
    let mut out = Seq::new(alloc);
    for name in names {
        out.push(name.copy().map(Expr::Field)?)?;
    }
    Ok(out)
}

// That a row's key isn't lacking in all lists.
fn not_all(alloc: Global, sets: &[Text]) -> Result<Expr, OutOfMemory>
    ensures { IfOk result (λ e. e ≡ not_all sets.now) }
{
    let fields = all_fields(alloc, sets)?;
    let all = joined(alloc, BinOp::And, true, fields)?;
    let boxed = Boxed::new(alloc, all)?;
    Ok(Expr::Not(boxed))
}

// Adds the steps to the rows whose key one of some lists has.
fn push_kept(
    alloc: Global,
    stem: &Text,
    key: &Text,
    sets: &[Text],
    out: &mut Seq<Transform>,
) -> Result<(), OutOfMemory>
    ensures { OnOk result (out.new ≡ out.old ++ kept_in stem.now key.now sets.now) }
{
    push_lacks(alloc, stem, key, sets, out)?;
    let expr = not_all(alloc, sets)?;
    out.push(Transform::Filter(Filter { expr }))
}

// What an operation that counts gives of each cell.
fn ranks_given(
    alloc: Global,
    stem: &Text,
    facets: &[Text],
    by: &RowsOrder,
) -> Result<Transform, OutOfMemory>
    ensures { IfOk result (λ made. made ≡ vega.Aggregate (given_in (told_by stem.now facets.now) by.now (rank_column stem.now))) }
{
    let name = rank_column(stem)?;
    let fields = told_by(alloc, stem, facets)?;
    given_in(alloc, fields, by, name)
}

// The cell of the order's field as the rank of each row.
fn rank_of_field(stem: &Text, by: &RowsOrder) -> Result<Transform, OutOfMemory>
    ensures { IfOk result (λ made. made ≡ rank_formula stem.now (field_expr by.now.field)) }
{
    let e = field_expr(&by.field)?;
    rank_formula(stem, e)
}

// The ranks of rows.
fn rank_step(
    alloc: Global,
    stem: &Text,
    facets: &[Text],
    by: &RowsOrder,
) -> Result<Transform, OutOfMemory>
    ensures { IfOk result (λ made. made ≡ rank_step stem.now facets.now by.now) }
{
    if counts(by.op) {
        ranks_given(alloc, stem, facets, by)
    } else {
        rank_of_field(stem, by)
    }
}

// Adds the steps from the key of a row to the rows whose key one of some lists has.
fn push_kept_by_key(
    alloc: Global,
    stem: &Text,
    facets: &[Text],
    sets: &[Text],
    out: &mut Seq<Transform>,
) -> Result<(), OutOfMemory>
    ensures { OnOk result (out.new ≡ out.old ++ kept_in stem.now (key_name stem.now facets.now) sets.now) }
{
    let key = key_name(alloc, stem, facets)?;
    push_kept(alloc, stem, &key, sets, out)
}

// The rows before the aggregate whose key one of some lists has, with their ranks.
fn ranks_steps(
    alloc: Global,
    stem: &Text,
    scale: usize,
    facets: &[Text],
    sets: &[Text],
    by: &RowsOrder,
) -> Result<Seq<Transform>, OutOfMemory>
    ensures { IfOk result (λ steps. steps ≡ ranks_steps stem.now scale facets.now sets.now by.now) }
{
    let mut out = one_of(alloc, field_formula(stem, &by.cell)?)?;
    push_key(alloc, stem, scale, facets, &mut out)?;
    push_kept_by_key(alloc, stem, facets, sets, &mut out)?;
    out.push(rank_step(alloc, stem, facets, by)?)?;
    Ok(out)
}

/// The list of these rows.
pub(crate) fn ranks_list(
    alloc: Global,
    stem: &Text,
    scale: usize,
    facets: &[Text],
    sets: &[Text],
    by: &RowsOrder,
) -> Result<DataSet, OutOfMemory>
    ensures { IfOk result (λ set. set ≡ ranks_list stem.now scale facets.now sets.now by.now) }
{
    let name = ranks_name(alloc, stem, scale)?;
    let source = begun_name(alloc, stem, by.unit)?;
    let steps = ranks_steps(alloc, stem, scale, facets, sets, by)?;
    Ok(list_made(name, source, steps))
}

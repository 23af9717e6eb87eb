// A row for each of several fields.
ghost use Rattle.std.specs.Prelude.{◌≡◌, ◌≤◌, ◌<◌, ◌^◌, ◌*◌, ◌+◌, ◌++◌, length, map, All, IfOk, OnOk};
ghost use Rattle.cell_value.specs.declared.state.Key.{Key};
ghost use Rattle.cell_value.specs.State.{greatest_id};
ghost use Rattle.cell_value.specs.Datum.{datum_of};
ghost use Rattle.plain_rows.specs.Rows.{AreRows, most_listed, keys_of};
ghost use Rattle.plain_rows.specs.Folds.{folded_row, folded_of, folded, data_folded};

use crate::FoldOf;
use crate::cells::held_of;
use cell_value::{Held, Key, Keyed, Rows, SharedText};
use std::alloc::Global;
use text_kit::{OutOfMemory, Seq};

/// For each row, in order, a row for each field, in order: a copy of it with the field's name under `out_key` and then the row's cell
/// of the field under `out_value`. The row for field `i` of `n`, counted from 0, has the row's id and the branch `b * n + i`, where `b`
/// is the row's branch. Their keys rise, their ids are at most 10^15, there are at most 1,600,000 of them, and no more after it; each
/// new branch is below 2^32.
#[tactic(auto, using(crate::proofs::FoldLemmas::folded_are_rows, crate::proofs::FoldLemmas::fold_reads))]
pub fn fold(alloc: Global, rows: &Rows, f: &FoldOf) -> Result<Rows, OutOfMemory>
    requires rows { AreRows rows.now }
    requires branches { All (λ (key : Key). key.branch < 2 ^ 32) (keys_of (folded f.now rows.now)) }
    requires few { length (folded f.now rows.now) ≤ most_listed }
    ensures made { IfOk result (λ out. out ≡ folded f.now rows.now) }
    ensures read { IfOk result (λ out. map datum_of out ≡ data_folded f.now (map datum_of rows.now)) }
    ensures rows { IfOk result AreRows }
{
    folded_rows(alloc, rows.as_slice(), f)
}

// The rows that are made of rows.
fn folded_rows(alloc: Global, rows: &[Keyed], f: &FoldOf) -> Result<Rows, OutOfMemory>
    requires rows { AreRows rows.now }
    requires branches { All (λ (key : Key). key.branch < 2 ^ 32) (keys_of (folded f.now rows.now)) }
    ensures { IfOk result (λ out. out ≡ folded f.now rows.now) }
{
    let mut out = Seq::new(alloc);
    for row in rows {
        push_folded(alloc, &mut out, row, f)?;
    }
    Ok(out)
}

// Adds the rows that are made of a row.
fn push_folded(alloc: Global, out: &mut Rows, row: &Keyed, f: &FoldOf) -> Result<(), OutOfMemory>
    requires id { row.now.key.id ≤ greatest_id }
    requires branches { All (λ (key : Key). key.branch < 2 ^ 32) (keys_of (folded_of f.now row.now)) }
    ensures { OnOk result (out.new ≡ out.old ++ folded_of f.now row.now) }
{
    for (at, field) in f.fields.as_slice().iter().enumerate() {
        out.push(folded_row(alloc, row, f, at as u64, field)?)?;
    }
    Ok(())
}

// The row that is made of a row for a field at a place.
fn folded_row(
    alloc: Global,
    row: &Keyed,
    f: &FoldOf,
    at: u64,
    field: &SharedText,
) -> Result<Keyed, OutOfMemory>
    requires id { row.now.key.id ≤ greatest_id }
    requires branch { row.now.key.branch * length f.now.fields + at < 2 ^ 32 }
    ensures { IfOk result (λ made. made ≡ folded_row f.now row.now at field.now) }
{
    let value = held_of(alloc, row, field.as_str())?;
    let mut made = row.copy()?;
    made.row
        .set_shared(alloc, f.out_key.copy()?, Held::of_text(field.copy()?))?;
    made.row.set_shared(alloc, f.out_value.copy()?, value)?;
    let branch = u64::from(row.key.branch) * f.fields.len() as u64 + at;
    made.key = Key {
        id: row.key.id,
        branch: branch as u32,
    };
    Ok(made)
}

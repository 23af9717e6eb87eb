// Every choice of one cell of each list.
ghost use Rattle.std.specs.Prelude.{◌≡◌, ◌++◌, [], ◌∷◌, map, flat_map, IfOk, OnOk};
ghost use Rattle.plain_facets.specs.Facets.{choices};

use cell_value::Cell;
use std::alloc::Global;
use text_kit::{OutOfMemory, Seq, copy_list};

// A cell before some others.
fn before(alloc: Global, cell: &Cell, rest: &Seq<Cell>) -> Result<Seq<Cell>, OutOfMemory>
    ensures { IfOk result (λ made. made ≡ cell.now ∷ rest.now) }
{
    let mut made = Seq::new(alloc);
    made.push(cell.copy()?)?;
    made.append(copy_list(alloc, rest.as_slice())?)?;
    Ok(made)
}

// Adds a cell before each of some choices.
fn push_before(
    out: &mut Seq<Seq<Cell>>,
    alloc: Global,
    cell: &Cell,
    rests: &[Seq<Cell>],
) -> Result<(), OutOfMemory>
    ensures { OnOk result (out.new ≡ out.old ++ map (λ rest. cell.now ∷ rest) rests.now) }
{
    for rest in rests {
        out.push(before(alloc, cell, rest)?)?;
    }
    Ok(())
}

// Each of some cells before each of some choices, the first cell outermost.
fn crossed(
    alloc: Global,
    cells: &[Cell],
    rests: &[Seq<Cell>],
) -> Result<Seq<Seq<Cell>>, OutOfMemory>
    ensures { IfOk result (λ made. made ≡ flat_map (λ cell. map (λ rest. cell ∷ rest) rests.now) cells.now) }
{
    let mut out = Seq::new(alloc);
    for cell in cells {
        push_before(&mut out, alloc, cell, rests)?;
    }
    Ok(out)
}

// The one choice among no lists.
fn no_cells(alloc: Global) -> Result<Seq<Seq<Cell>>, OutOfMemory>
    ensures { IfOk result (λ made. made ≡ choices []) }
{
    let mut made = Seq::new(alloc);
    made.push(Seq::new(alloc))?;
    Ok(made)
}

/// Every choice of one cell of each list, the first list outermost.
pub fn choices(alloc: Global, lists: &[Seq<Cell>]) -> Result<Seq<Seq<Cell>>, OutOfMemory>
    ensures { IfOk result (λ made. made ≡ choices lists.now) }
{
    let mut made = no_cells(alloc)?;
    for at in (0..lists.len()).rev() {
        made = crossed(alloc, lists[at].as_slice(), made.as_slice())?;
    }
    Ok(made)
}

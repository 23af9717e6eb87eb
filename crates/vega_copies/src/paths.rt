// Where paths of steps lead among copies that were made.
ghost use Rattle.std.specs.Prelude.{◌≡◌, IfOk, option_copied};
ghost use Rattle.vega_copies.specs.inner.FactsMade.{copy_stepped, inside_at, inside_behind, levels_at};
ghost use Rattle.vega_copies.specs.inner.Made.{levels_behind};

use crate::facts::Step;
use crate::levels::with_level;
use crate::made::{CopiesMade, CopyMade};
use crate::names::Level;
use std::alloc::Global;
use text_kit::{OutOfMemory, Seq};

// The copy to which a step leads, if there is one.
fn copy_stepped<'a>(inside: &'a [CopiesMade], step: &Step) -> Option<&'a CopyMade>
    ensures { option_copied result ≡ copy_stepped inside.now step.now }
{
    match inside.get(step.mark) {
        Some(found) => found.copies.as_slice().get(step.copy),
        None => None,
    }
}

// What was made of the marks in the copy to which a step leads; where there is no such copy, of those that it leads from.
fn inside_behind<'a>(inside: &'a [CopiesMade], step: &Step) -> &'a [CopiesMade]
    ensures { result.now ≡ inside_behind inside.now step.now }
{
    match copy_stepped(inside, step) {
        Some(copy) => copy.inside.as_slice(),
        None => inside,
    }
}

// What was made of the marks in the copy to which a path leads.
fn inside_on<'a>(made: &'a [CopiesMade], path: &[Step]) -> &'a [CopiesMade]
    ensures { result.now ≡ inside_at made.now path.now }
{
    let [step, outer @ ..] = path else {
        return made;
    };
    inside_behind(inside_on(made, outer), step)
}

/// The levels of names in the copy to which a path leads from the top, the inner before the outer. The path has its inner steps before the
/// outer; a step to a copy that wasn't made leads nowhere.
pub fn levels_on<'a>(
    alloc: Global,
    level: &'a Level,
    made: &'a [CopiesMade],
    path: &[Step],
) -> Result<Seq<&'a Level>, OutOfMemory>
    ensures { IfOk result (λ levels. levels_behind levels ≡ levels_at level.now made.now path.now) }
{
    let [step, outer @ ..] = path else {
        return with_level(alloc, level, &[]);
    };
    let round = levels_on(alloc, level, made, outer)?;
    match copy_stepped(inside_on(made, outer), step) {
        Some(copy) => with_level(alloc, &copy.level, round.as_slice()),
        None => Ok(round),
    }
}

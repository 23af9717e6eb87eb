//! A specification's file, compiled.
ghost use Rattle.std.specs.Prelude.{◌≤◌, IfSome, IsErrOf};
ghost use Rattle.chart_io.specs.Outside.{Rose, Kept};
ghost use Rattle.chart_opening.specs.Answers.{Opens};
ghost use Rattle.chart_opening.specs.Compiled.{compiled_tree, compiled_by};
ghost use Rattle.chart_opening.specs.Texts.{Reading, ReadsJson};
ghost use Rattle.chart_opening.specs.inner.Folders.{IsRead};
ghost use Rattle.chart_opening.specs.inner.Reading.{the_reading};

use crate::files::tree_of_file;
use crate::opened::{Opened, opened_with};
use crate::refusal::OpenStop;
use crate::specs::compiled_of;
use chart_io::Folder;
use json_exact::Json;
use std::alloc::Global;

// The specification to which a tree is compiled, with its opening state.
fn compiled_tree<F: Folder>(alloc: Global, folder: &mut F, tree: Json) -> Result<Opened, OpenStop>
    ensures { IsRead (F.faults folder.old) (F.faults folder.new) (F.files folder.old) (F.files folder.new) result
        (λ files. compiled_tree the_reading files tree) }
{
    let spec = compiled_of(alloc, tree)?;
    opened_with(alloc, folder, spec)
}

// The specification to which a file is compiled, with its opening state.
fn compiled_in<F: Folder>(alloc: Global, name: &str, folder: &mut F) -> Result<Opened, OpenStop>
    ensures { IsRead (F.faults folder.old) (F.faults folder.new) (F.files folder.old) (F.files folder.new) result
        (λ files. compiled_by the_reading files name.now) }
{
    match tree_of_file(alloc, folder, name) {
        Ok(tree) => compiled_tree(alloc, folder, tree),
        Err(why) => Err(why),
    }
}

/// The Vega specification to which the file of this name is compiled, with the state in which it opens, or the first cause for which it
/// is refused, in the order of `opened_file`. A Vega specification is refused as `Spec`, which is wrong at `/$schema`. The chart isn't
/// drawn.
pub fn compiled_file<F: Folder>(
    alloc: Global,
    name: &str,
    folder: &mut F,
) -> Result<Opened, OpenStop>
    ensures counted { F.faults folder.old ≤ F.faults folder.new }
    ensures stays { Kept (F.files folder.old) (F.files folder.new) }
    ensures read { IsErrOf result OpenStop.Read → Rose (F.faults folder.old) (F.faults folder.new) }
    ensures told { IfSome (F.files folder.old)
        (λ files. (reading : Reading) → ReadsJson reading → Opens result (compiled_by reading files name.now)) }
{
    compiled_in(alloc, name, folder)
}

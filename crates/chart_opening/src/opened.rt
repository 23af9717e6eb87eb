//! A specification's file, opened.
ghost use Rattle.std.specs.Prelude.{◌≡◌, ◌≤◌, IfOk, IfSome, IsErrOf};
ghost use Rattle.cell_value.specs.State.{state_of};
ghost use Rattle.vega_meaning.specs.States.{IsStateOf};
ghost use Rattle.chart_io.specs.Outside.{Rose, Kept};
ghost use Rattle.chart_opening.specs.Answers.{Opens};
ghost use Rattle.chart_opening.specs.Ready.{IsReady};
ghost use Rattle.chart_opening.specs.Specs.{opened_with, opened_tree, opened_by};
ghost use Rattle.chart_opening.specs.Texts.{Reading, ReadsJson};
ghost use Rattle.chart_opening.specs.inner.Folders.{IsRead};
ghost use Rattle.chart_opening.specs.inner.Reading.{the_reading};
ghost use Rattle.chart_opening.specs.inner.Trees.{IsFileTree};

use crate::files::tree_of_file;
use crate::opening::opening;
use crate::refusal::OpenStop;
use crate::specs::spec_of;
use cell_value::ChartState;
use chart_io::Folder;
use json_exact::Json;
use std::alloc::Global;
use vega_spec::VgSpec;

/// A specification with the state in which it opens.
#[derive(Debug, Drop)]
pub struct Opened {
    /// The Vega specification.
    pub spec: VgSpec,
    /// The state in which it opens.
    pub state: ChartState,
}

/// A specification with its opening state.
pub fn opened_with<F: Folder>(
    alloc: Global,
    folder: &mut F,
    spec: VgSpec,
) -> Result<Opened, OpenStop>
    ensures read { IsRead (F.faults folder.old) (F.faults folder.new) (F.files folder.old) (F.files folder.new) result
        (λ files. opened_with the_reading files spec) }
    ensures spec { IfOk result (λ opened. opened.spec ≡ spec) }
    ensures state { IfOk result (λ opened. IsStateOf opened.spec (state_of opened.state)) }
{
    match opening(alloc, folder, &spec) {
        Ok(state) => Ok(Opened { spec, state }),
        Err(why) => Err(why),
    }
}

// The specification that a tree says, with its opening state.
fn opened_tree<F: Folder>(alloc: Global, folder: &mut F, tree: Json) -> Result<Opened, OpenStop>
    requires { IsFileTree tree }
    ensures read { IsRead (F.faults folder.old) (F.faults folder.new) (F.files folder.old) (F.files folder.new) result
        (λ files. opened_tree the_reading files tree) }
    ensures ready { IfOk result IsReady }
{
    vega_standing::accepted_keep_rules();
    vega_standing::accepted_keep_selections();
    let spec = spec_of(alloc, tree)?;
    opened_with(alloc, folder, spec)
}

// The specification in a file, with its opening state.
fn opened_in<F: Folder>(alloc: Global, name: &str, folder: &mut F) -> Result<Opened, OpenStop>
    ensures read { IsRead (F.faults folder.old) (F.faults folder.new) (F.files folder.old) (F.files folder.new) result
        (λ files. opened_by the_reading files name.now) }
    ensures ready { IfOk result IsReady }
{
    match tree_of_file(alloc, folder, name) {
        Ok(tree) => opened_tree(alloc, folder, tree),
        Err(why) => Err(why),
    }
}

/// The Vega specification in the file of this name with the state in which it opens, or the first cause for which it is refused, in
/// this order: the specification's file (`Missing`, `Size`), its JSON (`Json`), the specification (`Spec`), each file of data in the
/// order of the sources (`Missing`, `Size`, and then `Json`), the rows of each source (`Row`), the count of all rows (`Rows`). Each
/// comes exactly where it holds, unless a read failed (`Read`) or memory was refused (`Memory`). Its chart isn't drawn. What is opened
/// breaks no rule, and its state is one of it.
pub fn opened_file<F: Folder>(alloc: Global, name: &str, folder: &mut F) -> Result<Opened, OpenStop>
    ensures counted { F.faults folder.old ≤ F.faults folder.new }
    ensures stays { Kept (F.files folder.old) (F.files folder.new) }
    ensures read { IsErrOf result OpenStop.Read → Rose (F.faults folder.old) (F.faults folder.new) }
    ensures told { IfSome (F.files folder.old)
        (λ files. (reading : Reading) → ReadsJson reading → Opens result (opened_by reading files name.now)) }
    ensures ready { IfOk result IsReady }
{
    opened_in(alloc, name, folder)
}

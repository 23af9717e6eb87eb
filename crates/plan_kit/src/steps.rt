// Steps over rows.
use expr_syntax::Expr;
use plain_rows::{BinOf, FoldOf, GroupOf, LookupOf, StackOf, TimeOf, WindowOf};
use text_kit::Text;

/// A step over rows.
pub enum Step {
    /// The rows for which an expression holds.
    Filter(Expr),
    /// A cell computed of each row, under a name.
    Calculate(Expr, Text),
    /// The bins of a field.
    Bin(BinOf),
    /// The units of time of a field.
    Unit(TimeOf),
    /// A row for each group.
    Group(GroupOf),
    /// What is computed of each group, in each of its rows.
    Join(GroupOf),
    /// Where the numbers of a field begin and end, stacked.
    Stack(StackOf),
    /// What is computed of each row over its neighbours.
    Window(WindowOf),
    /// The cells of rows of the source of this name.
    Lookup(Text, LookupOf),
    /// A row for each of several fields.
    Fold(FoldOf),
}

impl Drop for Step {
    fn drop(self) {
        match self {
            Step::Filter(e) => drop(e),
            Step::Calculate(e, _) => drop(e),
            Step::Bin(of) => drop(of),
            Step::Unit(of) => drop(of),
            Step::Group(of) => drop(of),
            Step::Join(of) => drop(of),
            Step::Stack(of) => drop(of),
            Step::Window(of) => drop(of),
            Step::Lookup(_, of) => drop(of),
            Step::Fold(of) => drop(of),
        }
    }
}

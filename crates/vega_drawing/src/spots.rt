// Where copies stand in their grids.
ghost use Rattle.std.specs.Prelude.{◌≡◌, ◌<◌};
ghost use Rattle.vega_drawing.specs.Scales.{spot_of, is_at};

use vega_spec::Edge;

/// Where a copy of a faceted group stands in its grid.
#[derive(Clone, Copy, Debug, PartialEq, Eq)]
pub struct GridSpot {
    /// Whether no cell of the grid is below it.
    pub is_last_row: bool,
    /// Whether it is in the first column.
    pub is_first_column: bool,
}

/// How the cells of a grid stand.
#[derive(Clone, Copy, Debug, PartialEq, Eq)]
pub struct Grid {
    /// How many stand side by side, from 1 on.
    pub columns: u64,
    /// How many there are.
    pub cells: u64,
}

/// The spot of the cell of this index in a grid.
pub(crate) fn spot_of(grid: Grid, index: u64) -> GridSpot
    requires columns { 0 < grid.columns }
    requires within { index < grid.cells }
    ensures { result ≡ spot_of grid.columns grid.cells index }
{
    GridSpot {
        is_last_row: grid.cells - index <= grid.columns,
        is_first_column: index % grid.columns == 0,
    }
}

/// Whether a spot is at an edge.
pub(crate) fn is_at(edge: Edge, spot: &GridSpot) -> bool
    ensures { result ≡ is_at edge spot.now }
{
    match edge {
        Edge::LastRow => spot.is_last_row,
        Edge::FirstColumn => spot.is_first_column,
    }
}

// The order of cells as std's traits, so that std's sort and maps take cells.
ghost use Rattle.std.specs.Cmp.{eq_by_cmp_equiv, partial_equiv_from_equiv, partial_order_from_total};
ghost use Rattle.std.specs.Ordering.{as_partial_cmp};
ghost use Rattle.std.specs.Prelude.{refl};
ghost use Rattle.cell_value.specs.Cell.{cell_cmp, same_cells};
ghost use Rattle.cell_value.specs.inner.CellOrder.{cell_cmp_total};

use crate::Cell;
use std::cmp::Ordering;

impl PartialEq for Cell {
    ghost eq = { same_cells };

    ghost laws = { partial_equiv_from_equiv (eq_by_cmp_equiv cell_cmp_total) };

    fn eq(&self, o: &Cell) -> bool {
        self.same(o)
    }
}

impl Eq for Cell {
    ghost laws = { eq_by_cmp_equiv cell_cmp_total };
}

impl PartialOrd for Cell {
    ghost partial_cmp = { as_partial_cmp cell_cmp };

    ghost laws = { partial_order_from_total cell_cmp_total };

    fn partial_cmp(&self, o: &Cell) -> Option<Ordering> {
        Some(self.order(o))
    }
}

impl Ord for Cell {
    ghost cmp = { cell_cmp };

    ghost total = { cell_cmp_total };

    ghost matches_partial_cmp = { λ a b. refl };

    ghost matches_eq = { λ a b. refl };

    fn cmp(&self, o: &Cell) -> Ordering {
        self.order(o)
    }
}

// The orders of keys as std's traits, so that std's sort and maps take keys.
ghost use Rattle.std.specs.Cmp.{eq_by_cmp_equiv, partial_equiv_from_equiv, partial_order_from_total};
ghost use Rattle.std.specs.Cmp.Lexicographic.{slice_cmp, lists_total};
ghost use Rattle.std.specs.Ordering.{eq_by_cmp, as_partial_cmp};
ghost use Rattle.std.specs.Prelude.{refl};
ghost use Rattle.cell_value.specs.Cell.{cell_cmp, same_cells};
ghost use Rattle.cell_value.specs.inner.CellOrder.{cell_cmp_total};

use crate::{CellKey, RowKey};
use std::cmp::Ordering;

impl PartialEq for CellKey {
    ghost eq = { same_cells };

    ghost laws = { partial_equiv_from_equiv (eq_by_cmp_equiv cell_cmp_total) };

    fn eq(&self, o: &CellKey) -> bool {
        self.order(o).is_eq()
    }
}

impl Eq for CellKey {
    ghost laws = { eq_by_cmp_equiv cell_cmp_total };
}

impl PartialOrd for CellKey {
    ghost partial_cmp = { as_partial_cmp cell_cmp };

    ghost laws = { partial_order_from_total cell_cmp_total };

    fn partial_cmp(&self, o: &CellKey) -> Option<Ordering> {
        Some(self.order(o))
    }
}

impl Ord for CellKey {
    ghost cmp = { cell_cmp };

    ghost total = { cell_cmp_total };

    ghost matches_partial_cmp = { λ a b. refl };

    ghost matches_eq = { λ a b. refl };

    fn cmp(&self, o: &CellKey) -> Ordering {
        self.order(o)
    }
}

impl PartialEq for RowKey {
    ghost eq = { eq_by_cmp (slice_cmp cell_cmp) };

    ghost laws = { partial_equiv_from_equiv (eq_by_cmp_equiv (lists_total cell_cmp_total)) };

    fn eq(&self, o: &RowKey) -> bool {
        self.order(o).is_eq()
    }
}

impl Eq for RowKey {
    ghost laws = { eq_by_cmp_equiv (lists_total cell_cmp_total) };
}

impl PartialOrd for RowKey {
    ghost partial_cmp = { as_partial_cmp (slice_cmp cell_cmp) };

    ghost laws = { partial_order_from_total (lists_total cell_cmp_total) };

    fn partial_cmp(&self, o: &RowKey) -> Option<Ordering> {
        Some(self.order(o))
    }
}

impl Ord for RowKey {
    ghost cmp = { slice_cmp cell_cmp };

    ghost total = { lists_total cell_cmp_total };

    ghost matches_partial_cmp = { λ a b. refl };

    ghost matches_eq = { λ a b. refl };

    fn cmp(&self, o: &RowKey) -> Ordering {
        self.order(o)
    }
}

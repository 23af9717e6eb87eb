// Types of plans.
use crate::orders::CellOrder;
use fixed_num::Num;
use text_kit::{Seq, Text};

/// A field of a facet.
pub struct FacetField {
    /// The name of its cell in the rows.
    pub name: Text,
    /// In which order its cells stand.
    pub order: CellOrder,
    /// Whether its cells head panels beside them, and not above.
    pub is_beside: bool,
    /// Whether they head panels.
    pub labels: bool,
}

/// How rows are parted.
pub struct FacetPlan {
    /// The fields; each choice of a cell of each is a panel.
    pub fields: Seq<FacetField>,
    /// The numbers of the units whose rows are parted, rising.
    pub units: Seq<usize>,
}

/// How many cells of a grid stand side by side.
#[derive(Clone, Copy)]
pub enum GridColumns {
    /// All.
    OneRow,
    /// So many.
    Count(u32),
    /// As many as the last field of its facet has cells.
    Crossed,
}

/// A grid of views.
pub struct GridPlan {
    /// The number of its view.
    pub number: usize,
    /// How it parts rows, if its cells are panels.
    pub facet: Option<FacetPlan>,
    /// How many cells stand side by side.
    pub columns: GridColumns,
    /// The space between them, in pixels.
    pub spacing: Num,
    /// Its title.
    pub title: Option<Text>,
}

impl Drop for FacetField {
    fn drop(self) {
        let FacetField {
            name: _,
            order,
            is_beside: _,
            labels: _,
        } = self;
        drop(order);
    }
}

impl Drop for FacetPlan {
    fn drop(self) {
        let FacetPlan { fields, units: _ } = self;
        drop(fields);
    }
}

impl Drop for GridPlan {
    fn drop(self) {
        let GridPlan {
            number: _,
            facet,
            columns: _,
            spacing: _,
            title: _,
        } = self;
        drop(facet);
    }
}

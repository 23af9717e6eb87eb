// Marks as ends and looks.
ghost use Rattle.std.specs.Prelude.{◌≡◌};

use crate::cells::CellOf;
use cell_value::Cell;
use expr_syntax::Expr;
use fixed_num::Num;
use text_kit::{Seq, Text};
use vl_spec::{Align, Baseline};

/// Where an end of a mark stands along one direction.
pub enum Spot {
    /// At a cell, as pixels; nowhere where it is no number.
    Pixels(Cell),
    /// At the place of a cell on a scale of the plan; of a band at its lesser end.
    Place(usize, CellOf),
    /// At the middle of the band of a cell on a scale of the plan, or at its place on a scale without bands.
    Centre(usize, CellOf),
    /// One band past the place of a cell on a scale of the plan.
    EndOfBand(usize, CellOf),
    /// At the base of a scale of the plan: the place of 0 where its domain holds it, else where its range begins.
    Base(usize),
    /// In the middle of the plot.
    Middle,
    /// At 0 along x, and at the height of the plot along y.
    Foot,
    /// Nowhere.
    Nowhere,
}

/// Where an end stands for the rows for which a test holds.
pub struct SpotWay {
    /// The test; without one it holds for every row.
    pub test: Option<Expr>,
    /// Where it stands.
    pub gives: Spot,
    /// How far it is moved from there, in pixels.
    pub offset: Option<Num>,
}

/// The two ends of a mark along one direction, of which each stands where the first way says whose test holds.
pub struct Along {
    /// The near end.
    pub near: Seq<SpotWay>,
    /// The far end; points and lines have none.
    pub far: Seq<SpotWay>,
}

/// What a look shows.
pub enum Look {
    /// A cell that is written.
    Written(Cell),
    /// What a scale of the plan gives for a cell.
    OnScale(usize, CellOf),
}

/// What a look shows for the rows for which a test holds.
pub struct LookWay {
    /// The test; without one it holds for every row.
    pub test: Option<Expr>,
    /// What it shows.
    pub gives: Look,
}

/// The words of a text.
pub struct Words {
    /// The cell whose display they are, or whose label.
    pub cell: CellOf,
    /// The format of the label.
    pub format: Option<Text>,
}

/// The words of a text for the rows for which a test holds.
pub struct WordsWay {
    /// The test; without one it holds for every row.
    pub test: Option<Expr>,
    /// The words.
    pub gives: Words,
}

/// How the words of a text stand.
#[derive(Clone, Copy)]
pub struct TextLook {
    /// Which part of it stands at its place.
    pub align: Align,
    /// Which line of it stands at its place.
    pub baseline: Baseline,
    /// How far it is moved to the right, in pixels.
    pub dx: Num,
    /// How far down.
    pub dy: Num,
    /// The size of its font, in pixels.
    pub size: Num,
}

/// The shape of the items of a mark.
#[derive(Clone, Copy)]
pub enum MarkShape {
    /// A rect between two ends along x and two along y.
    Rect,
    /// A sign about a place.
    Symbol,
    /// A path through the places of rows.
    Line,
    /// A path through the near ends of rows, and back through their far ends.
    Area,
    /// A line between two ends along x and two along y.
    Rule,
    /// A text at a place.
    Text,
}

/// A mark of a unit.
pub struct MarkPlan {
    /// The shape of its items.
    pub shape: MarkShape,
    /// Its ends along x.
    pub across: Along,
    /// Its ends along y.
    pub down: Along,
    /// Whether its colour is that of a line, and not of what is inside.
    pub stroked: bool,
    /// The width of that line, in pixels; None where there is none.
    pub line_width: Option<Num>,
    /// The colour.
    pub color: Seq<LookWay>,
    /// The opacity.
    pub opacity: Seq<LookWay>,
    /// The area of a sign, in square pixels; nothing for other shapes.
    pub size: Seq<LookWay>,
    /// Which sign it is; nothing for other shapes.
    pub sign: Seq<LookWay>,
    /// The words of a text; nothing for other shapes.
    pub words: Seq<WordsWay>,
    /// How they stand; None for other shapes.
    pub text: Option<TextLook>,
    /// The field by which a path goes from row to row, with ties by key; None for other shapes, and where a path goes by key.
    pub order: Option<Text>,
    /// The fields whose combinations have a path each; none for other shapes.
    pub series: Seq<Text>,
}

impl Drop for Spot {
    fn drop(self) {
        match self {
            Spot::Pixels(_) => {}
            Spot::Place(_, cell) => drop(cell),
            Spot::Centre(_, cell) => drop(cell),
            Spot::EndOfBand(_, cell) => drop(cell),
            Spot::Base(_) | Spot::Middle | Spot::Foot | Spot::Nowhere => {}
        }
    }
}

impl Drop for SpotWay {
    fn drop(self) {
        let SpotWay {
            test: _,
            gives,
            offset: _,
        } = self;
        drop(gives);
    }
}

impl SpotWay {
    /// The same under a test.
    pub fn under(self, test: Option<Expr>) -> SpotWay
        ensures { result ≡ record self { test = test } }
    {
        let SpotWay {
            test: _,
            gives,
            offset,
        } = self;
        SpotWay {
            test,
            gives,
            offset,
        }
    }
}

impl Drop for Along {
    fn drop(self) {
        let Along { near: _, far: _ } = self;
    }
}

impl Drop for Look {
    fn drop(self) {
        match self {
            Look::Written(_) => {}
            Look::OnScale(_, cell) => drop(cell),
        }
    }
}

impl Drop for LookWay {
    fn drop(self) {
        let LookWay { test: _, gives } = self;
        drop(gives);
    }
}

impl Drop for Words {
    fn drop(self) {
        let Words { cell, format: _ } = self;
        drop(cell);
    }
}

impl Drop for WordsWay {
    fn drop(self) {
        let WordsWay { test: _, gives } = self;
        drop(gives);
    }
}

impl Drop for MarkPlan {
    fn drop(self) {
        let MarkPlan {
            shape: _,
            across,
            down,
            stroked: _,
            line_width: _,
            color: _,
            opacity: _,
            size: _,
            sign: _,
            words: _,
            text: _,
            order: _,
            series: _,
        } = self;
        drop(across);
        drop(down);
    }
}

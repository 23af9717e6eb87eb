//! What holds of each chart of the first form.
ghost use Rattle.first_form.specs.Laws.{FormsAreDrawable, VegaChartIsTheChart, ChartsAreDrawn, OpeningIsState, BarsKeepRules, ValuesAreRows};

/// A form that is read has at most 1,000 values, with amounts from 0 to 1,000,000,000, under two fields.
pub fn forms_are_drawable()
    ensures { FormsAreDrawable }
{}

/// The Vega chart of a form in its opening state is the chart of the form.
#[tactic(auto, using(crate::proofs::SameChart::vega_chart_is))]
pub fn vega_chart_is_the_chart()
    ensures { VegaChartIsTheChart }
{}

/// Such a form always has a chart: no number of it is out of range.
#[tactic(auto, using(crate::proofs::DrawableLemmas::chart_drawn))]
pub fn charts_are_drawn()
    ensures { ChartsAreDrawn }
{}

/// The state in which such a form opens is one of its Vega specification.
#[tactic(auto, using(crate::proofs::OpeningStates::is_state_of))]
pub fn opening_is_a_state()
    ensures { OpeningIsState }
{}

/// The Vega specification of a form keeps the rules of charts and of selections.
pub fn bars_keep_rules()
    ensures { BarsKeepRules }
{}

/// The values of its Vega specification, read as rows, are the rows of the state in which it opens.
#[tactic(auto, using(crate::proofs::ValueRows::values_are_rows))]
pub fn values_are_rows()
    ensures { ValuesAreRows }
{}

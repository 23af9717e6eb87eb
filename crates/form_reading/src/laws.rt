// Laws of texts of the first chart form.
ghost use Rattle.form_reading.specs.Laws.{TextsDrawTheirForms, TextsSayTheirForms};

use chart_meaning::the_first_form_is_a_special_case;
use first_form::forms_are_drawable;

/// What is of the first form says, as a Vega-Lite specification, the specification of its form.
pub fn texts_say_their_forms()
    ensures { TextsSayTheirForms }
{}

/// The chart of what is of the first form, by the form's own definition, is the chart of the Vega-Lite specification that it says.
pub fn texts_draw_their_forms()
    ensures { TextsDrawTheirForms }
{
    texts_say_their_forms();
    forms_are_drawable();
    the_first_form_is_a_special_case();
}

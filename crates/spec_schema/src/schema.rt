//! A schema.
ghost use Rattle.std.specs.Prelude.{◌≡◌};
ghost use Rattle.std.specs.Option.{option_copied, is_some};
ghost use Rattle.json_exact.specs.declared.json.Json.{out-Json};
ghost use Rattle.spec_schema.specs.Forms.{taken_form, takes, fits, layout_of};
ghost use Rattle.spec_schema.specs.Values.{object_passes};
ghost use Rattle.spec_schema.specs.Layouts.{layout_in};

use crate::form::{
    Form, Shape, has_length, is_cell, is_flag, is_null, is_number_between, is_one_of, is_pair_list,
    is_text, is_true, is_whole_between,
};
use crate::holding::{applies, names_of};
use crate::layout::Layout;
use json_exact::{Json, Member};
use text_kit::{Seq, Text};

/// The rules of a format. Shapes, lists of names and objects go by codes: the forms of a shape and the layouts of an object are
/// those that have its code, and the code of a list of names is its index, counted from 0.
#[derive(Debug, Drop)]
pub struct Schema {
    /// The forms that the values of each shape may have.
    pub shapes: Seq<Shape>,
    /// The lists of names of which a text has to be one.
    pub names: Seq<Seq<Text>>,
    /// The layouts of all objects.
    pub layouts: Seq<Layout>,
}

/// The first layout of the object that applies to the members.
pub fn layout_in<'a>(schema: &'a Schema, object: u16, members: &[Member]) -> Option<&'a Layout>
    ensures { option_copied result ≡ layout_in schema.now object members.now }
{
    for layout in schema.layouts.as_slice() {
        if applies(schema, layout, object, members) {
            return Some(layout);
        }
    }
    None
}

// Whether the value is an object that some layout of the object applies to.
fn is_laid_out(schema: &Schema, object: u16, tree: &Json) -> bool
    ensures { result ≡ object_passes (λ members. is_some (layout_in schema.now object members)) (out-Json tree.now) }
{
    match tree {
        Json::Object(members) => layout_in(schema, object, members.as_slice()).is_some(),
        Json::Null | Json::Flag(_) | Json::Number(_) | Json::Huge | Json::Text(_) | Json::List(_) =>
            false,
    }
}

// Whether a value has a form, apart from what stands inside it.
fn fits(schema: &Schema, form: Form, tree: &Json) -> bool
    ensures { result ≡ fits schema.now form (out-Json tree.now) }
{
    match form {
        Form::Null => is_null(tree),
        Form::Flag => is_flag(tree),
        Form::True => is_true(tree),
        Form::Number { least, most } => is_number_between(tree, least, most),
        Form::Whole { least, most } => is_whole_between(tree, least, most),
        Form::Text => is_text(tree),
        Form::Name(code) => is_one_of(tree, names_of(schema, code)),
        Form::Except(code) => !is_one_of(tree, names_of(schema, code)),
        Form::Cell => is_cell(tree),
        Form::Free => true,
        Form::Pair(_) => is_pair_list(tree),
        Form::List {
            least,
            most,
            items: _,
        } => has_length(tree, least, most),
        Form::Object(object) => is_laid_out(schema, object, tree),
    }
}

// Whether it is a form of the shape that the value has.
fn takes(schema: &Schema, shape: u16, entry: Shape, tree: &Json) -> bool
    ensures { result ≡ takes schema.now shape (out-Json tree.now) entry }
{
    entry.code == shape && fits(schema, entry.form, tree)
}

/// The first form of the shape that the value has; None exactly where it has none.
pub fn form_of(schema: &Schema, shape: u16, tree: &Json) -> Option<Form>
    ensures { result ≡ taken_form schema.now shape (out-Json tree.now) }
{
    for entry in schema.shapes.as_slice() {
        if takes(schema, shape, *entry, tree) {
            return Some(entry.form);
        }
    }
    None
}

/// The layout of the members, where the form is that of an object.
pub fn layout_of<'a>(schema: &'a Schema, form: Form, members: &[Member]) -> Option<&'a Layout>
    ensures { option_copied result ≡ layout_of schema.now form members.now }
{
    match form {
        Form::Object(object) => layout_in(schema, object, members),
        Form::Null
        | Form::Flag
        | Form::True
        | Form::Number { .. }
        | Form::Whole { .. }
        | Form::Text
        | Form::Name(_)
        | Form::Except(_)
        | Form::Cell
        | Form::Free
        | Form::Pair(_)
        | Form::List { .. } => None,
    }
}

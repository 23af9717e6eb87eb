// Normal forms in words.
use crate::names::channel_name;
use fixed_num::Num;
use std::alloc::Global;
use text_kit::{OutOfMemory, Seq, Text};
use vl_normalize::normalize;
use vl_spec::{
    Channel, ChannelKind, ChannelOf, Definition, Encoding, Facet, Faceted, Joined, Joining, Layer,
    Mark, MarkDefinition, MarkType, Resolve, Size, Unit, View, ViewKind, VlSpec,
};

/// The views of a normal form. Of each member that a view has beside its kind stands its name with what it says, of transforms and of what
/// `resolve` says how many there are.
pub fn said(alloc: Global, s: &VlSpec) -> Result<Text, OutOfMemory> {
    let mut out = Text::new(alloc);
    let normal = normalize(alloc, s)?;
    say_view(alloc, &mut out, &normal.view)?;
    Ok(out)
}

// Adds a number and what stands before and behind it.
fn say_number(out: &mut Text, name: &str, number: Num) -> Result<(), OutOfMemory> {
    out.push_str(name)?;
    out.push_str(number.decimal().as_str())?;
    out.push_str(" ")
}

// The same, where there is one.
fn say_number_at(out: &mut Text, name: &str, number: Option<Num>) -> Result<(), OutOfMemory> {
    match number {
        Some(number) => say_number(out, name, number),
        None => Ok(()),
    }
}

// Adds a count.
fn say_count(alloc: Global, out: &mut Text, name: &str, count: usize) -> Result<(), OutOfMemory> {
    out.push_str(format!(in alloc; "{name}{count} ")?.as_str())
}

// Adds a text, where there is one.
fn say_text(out: &mut Text, name: &str, text: &Option<Text>) -> Result<(), OutOfMemory> {
    match text {
        Some(text) => {
            out.push_str(name)?;
            out.push_str(text.as_str())?;
            out.push_str(" ")
        }
        None => Ok(()),
    }
}

// Adds a size, where there is one.
fn say_size(
    out: &mut Text,
    name: &str,
    step: &str,
    size: &Option<Size>,
) -> Result<(), OutOfMemory> {
    match size {
        Some(Size::Number(number)) => say_number(out, name, *number),
        Some(Size::Step(number)) => say_number(out, step, *number),
        None => Ok(()),
    }
}

// Adds the numbers of parameters.
fn say_params(alloc: Global, out: &mut Text, params: &[usize]) -> Result<(), OutOfMemory> {
    for number in params {
        say_count(alloc, out, "param=", *number)?;
    }
    Ok(())
}

// Adds how many channels a `resolve` speaks of.
fn say_resolve(
    alloc: Global,
    out: &mut Text,
    resolve: &Option<Resolve>,
) -> Result<(), OutOfMemory> {
    match resolve {
        Some(Resolve { scale: Some(said) }) => say_count(alloc, out, "resolve=", said.len()),
        Some(Resolve { scale: None }) => out.push_str("resolve "),
        None => Ok(()),
    }
}

// Adds what a definition shows.
fn say_definition(out: &mut Text, definition: &Definition) -> Result<(), OutOfMemory> {
    match definition {
        Definition::Value(_) => out.push_str("value"),
        Definition::Datum(_) => out.push_str("datum"),
        Definition::Field(of) => match &of.field {
            Some(field) => out.push_str(field.as_str()),
            None => out.push_str("-"),
        },
    }
}

// Adds what channels show.
fn say_definitions(out: &mut Text, channels: &[Channel]) -> Result<(), OutOfMemory> {
    for channel in channels {
        out.push_str(",")?;
        say_definition(out, &channel.definition)?;
    }
    Ok(())
}

// Adds a channel.
fn say_channel(out: &mut Text, channel: &ChannelOf) -> Result<(), OutOfMemory> {
    out.push_str(" ")?;
    out.push_str(channel_name(channel.channel))?;
    out.push_str(":")?;
    match &channel.shows {
        ChannelKind::One(channel) => say_definition(out, &channel.definition),
        ChannelKind::Several(channels) => say_definitions(out, channels.as_slice()),
    }
}

// Adds an encoding, where there is one.
fn say_encoding(out: &mut Text, encoding: &Option<Encoding>) -> Result<(), OutOfMemory> {
    match encoding {
        Some(encoding) => {
            for channel in encoding.channels.as_slice() {
                say_channel(out, channel)?;
            }
            out.push_str(";")
        }
        None => out.push_str(" no encoding;"),
    }
}

// The name of a type of marks.
fn type_name(type_: MarkType) -> &'static str {
    match type_ {
        MarkType::Bar => "bar",
        MarkType::Rect => "rect",
        MarkType::Point => "point",
        MarkType::Circle => "circle",
        MarkType::Square => "square",
        MarkType::Line => "line",
        MarkType::Area => "area",
        MarkType::Tick => "tick",
        MarkType::Rule => "rule",
        MarkType::Text => "text",
    }
}

// Adds a truth value, where there is one.
fn say_flag(out: &mut Text, name: &str, flag: Option<bool>) -> Result<(), OutOfMemory> {
    match flag {
        Some(true) => out.push_str(name),
        Some(false) => {
            out.push_str("not ")?;
            out.push_str(name)
        }
        None => Ok(()),
    }
}

// Adds a mark with its look.
fn say_look(out: &mut Text, mark: &MarkDefinition) -> Result<(), OutOfMemory> {
    out.push_str(type_name(mark.type_))?;
    out.push_str(" ")?;
    say_flag(out, "filled ", mark.filled)?;
    say_flag(out, "pointed ", mark.point)?;
    say_text(out, "in ", &mark.color)?;
    say_number_at(out, "opacity=", mark.opacity)?;
    say_number_at(out, "width=", mark.stroke_width)
}

// Adds a mark.
fn say_mark(out: &mut Text, mark: &Option<Mark>) -> Result<(), OutOfMemory> {
    match mark {
        Some(Mark::Type(type_)) => out.push_str(type_name(*type_)),
        Some(Mark::Definition(of)) => {
            out.push_str("{")?;
            say_look(out, of)?;
            out.push_str("}")
        }
        None => out.push_str("no mark"),
    }
}

// Adds how rows are parted.
fn say_part(out: &mut Text, name: &str, channel: &Option<Channel>) -> Result<(), OutOfMemory> {
    match channel {
        Some(channel) => {
            out.push_str(name)?;
            say_definition(out, &channel.definition)?;
            out.push_str(" ")
        }
        None => Ok(()),
    }
}

// Adds a facet.
fn say_facet(out: &mut Text, facet: &Facet) -> Result<(), OutOfMemory> {
    match facet {
        Facet::One(channel) => {
            out.push_str("by ")?;
            say_definition(out, &channel.definition)?;
            out.push_str(" ")
        }
        Facet::Cross(of) => {
            say_part(out, "row by ", &of.row)?;
            say_part(out, "column by ", &of.column)
        }
    }
}

// How views stand beside each other.
fn joining_name(joining: Joining) -> &'static str {
    match joining {
        Joining::Row => "hconcat ",
        Joining::Column => "vconcat ",
        Joining::Grid => "concat ",
    }
}

// Adds a unit.
fn say_unit(out: &mut Text, unit: &Unit) -> Result<(), OutOfMemory> {
    say_mark(out, &unit.mark)?;
    say_encoding(out, &unit.encoding)
}

// Adds what a view has beside its kind.
fn say_head(alloc: Global, out: &mut Text, view: &View) -> Result<(), OutOfMemory> {
    say_text(out, "name=", &view.name)?;
    say_text(out, "title=", &view.title)?;
    say_text(out, "data=", &view.data_)?;
    if let Some(steps) = &view.transform {
        say_count(alloc, out, "transforms=", steps.len())?;
    }
    say_params(alloc, out, view.params.as_slice())?;
    say_size(out, "width=", "width step ", &view.width)?;
    say_size(out, "height=", "height step ", &view.height)?;
    say_resolve(alloc, out, &view.resolve)
}

// Adds a view.
#[cycle(views)]
fn say_view(alloc: Global, out: &mut Text, view: &View) -> Result<(), OutOfMemory> {
    say_head(alloc, out, view)?;
    match &view.kind {
        ViewKind::Unit(unit) => say_unit(out, unit),
        ViewKind::Layer(layer) => say_layer(alloc, out, layer),
        ViewKind::Facet(faceted) => say_faceted(alloc, out, faceted),
        ViewKind::Joined(joined) => say_joined(alloc, out, joined),
    }
}

// Adds a layer.
#[cycle(views)]
fn say_layer(alloc: Global, out: &mut Text, layer: &Layer) -> Result<(), OutOfMemory> {
    out.push_str("layer")?;
    if layer.encoding.is_some() {
        say_encoding(out, &layer.encoding)?;
    }
    say_views(alloc, out, &layer.layer)
}

// Adds a faceted view.
#[cycle(views)]
fn say_faceted(alloc: Global, out: &mut Text, faceted: &Faceted) -> Result<(), OutOfMemory> {
    say_facet(out, &faceted.facet)?;
    say_number_at(out, "columns=", faceted.columns)?;
    say_number_at(out, "spacing=", faceted.spacing)?;
    out.push_str("[")?;
    say_view(alloc, out, faceted.spec.get())?;
    out.push_str("]")
}

// Adds joined views.
#[cycle(views)]
fn say_joined(alloc: Global, out: &mut Text, joined: &Joined) -> Result<(), OutOfMemory> {
    out.push_str(joining_name(joined.joining))?;
    say_number_at(out, "columns=", joined.columns)?;
    say_number_at(out, "spacing=", joined.spacing)?;
    say_views(alloc, out, &joined.views)
}

// Adds views.
#[cycle(views)]
fn say_views(alloc: Global, out: &mut Text, views: &Seq<View>) -> Result<(), OutOfMemory> {
    out.push_str("[")?;
    for view in views.as_slice() {
        say_view(alloc, out, view)?;
        out.push_str("|")?;
    }
    out.push_str("]")
}

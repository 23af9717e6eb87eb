// Marks, groups and whole specifications.
ghost use Rattle.std.specs.Prelude.{◌≡◌, IfOk};

use crate::copying::{beside_copy, push_copy};
use crate::{Axis, DataSet, Encode, Layout, Legend, MarkFrom, MarkType, Scale, Signal, Sort};
use expr_syntax::Expr;
use fixed_num::Num;
use std::alloc::Global;
use text_kit::{Copies, OutOfMemory, Seq, Text, copied_four, copied_six};

/// A mark.
#[cycle(marks)]
#[derive(Debug, Drop)]
pub struct VgMark {
    /// The type.
    pub type_: MarkType,
    /// The name.
    pub name: Option<Text>,
    /// Where its items come from.
    pub from: Option<MarkFrom>,
    /// What its items show.
    pub encode: Option<Encode>,
    /// The order of its items.
    pub sort: Option<Sort>,
    /// What a group has besides.
    pub group: Group,
}

/// What the whole specification and a group have in common.
#[cycle(marks)]
#[derive(Debug, Drop)]
pub struct Group {
    /// The data sets.
    pub data_: Option<Seq<DataSet>>,
    /// The signals.
    pub signals: Option<Seq<Signal>>,
    /// The scales.
    pub scales: Option<Seq<Scale>>,
    /// How its groups stand in a grid.
    pub layout: Option<Layout>,
    /// The marks.
    pub marks: Option<Seq<VgMark>>,
    /// The axes.
    pub axes: Option<Seq<Axis>>,
    /// The legends.
    pub legends: Option<Seq<Legend>>,
    /// The title.
    pub title: Option<Text>,
}

/// A Vega specification.
#[derive(Debug)]
pub struct VgSpec {
    /// What it has in common with a group.
    pub group: Group,
    /// `$schema`: the address of the format.
    pub schema: Option<Text>,
    /// What it shows, in words.
    pub description: Option<Text>,
    /// The width.
    pub width: Option<Size>,
    /// The height.
    pub height: Option<Size>,
    /// The space round the whole.
    pub padding: Option<Num>,
    /// How the picture's size is found.
    pub autosize: Option<Autosize>,
}

impl Drop for VgSpec {
    fn drop(self) {
        let VgSpec {
            group: _,
            schema: _,
            description: _,
            width: _,
            height: _,
            padding: _,
            autosize: _,
        } = self;
    }
}

/// A width or a height.
#[derive(Debug, Drop)]
pub enum Size {
    /// A number, in pixels.
    Number(Num),
    /// The value of an expression.
    Signal(Expr),
}

/// How the picture's size is found.
#[derive(Clone, Copy, Debug, PartialEq, Eq)]
pub enum Autosize {
    /// `pad`
    Pad,
}

impl VgMark {
    /// A mark that equals this one.
    #[cycle(marks)]
    pub fn copy(&self, alloc: Global) -> Result<VgMark, OutOfMemory>
        ensures { IfOk result (λ copy. copy ≡ self.now) }
    {
        let copies = copied_four(alloc, &self.name, &self.from, &self.encode, &self.sort)?;
        let (copies, group) = beside_copy(copies, &self.group, self.group.copy(alloc))?;
        let (name, from, encode, sort) = copies;
        Ok(VgMark {
            type_: self.type_,
            name,
            from,
            encode,
            sort,
            group,
        })
    }
}

impl Group {
    /// A group that equals this one.
    #[cycle(marks)]
    pub fn copy(&self, alloc: Global) -> Result<Group, OutOfMemory>
        ensures { IfOk result (λ copy. copy ≡ self.now) }
    {
        let copies = copied_six(
            alloc,
            &self.data_,
            &self.signals,
            &self.scales,
            &self.axes,
            &self.legends,
            &self.title,
        )?;
        let (copies, marks) = beside_copy(copies, &self.marks, copied_marks(alloc, &self.marks))?;
        let (data_, signals, scales, axes, legends, title) = copies;
        Ok(Group {
            data_,
            signals,
            scales,
            layout: self.layout,
            marks,
            axes,
            legends,
            title,
        })
    }
}

// A copy of the marks of a group.
#[cycle(marks)]
fn copied_marks(
    alloc: Global,
    marks: &Option<Seq<VgMark>>,
) -> Result<Option<Seq<VgMark>>, OutOfMemory>
    ensures { IfOk result (λ copy. copy ≡ marks.now) }
{
    let Some(marks) = marks else {
        return Ok(None);
    };
    let mut out = Seq::new(alloc);
    for mark in marks.as_slice() {
        push_copy(&mut out, mark, mark.copy(alloc))?;
    }
    Ok(Some(out))
}

impl VgSpec {
    /// A specification that equals this one.
    pub fn copy(&self, alloc: Global) -> Result<VgSpec, OutOfMemory>
        ensures { IfOk result (λ copy. copy ≡ self.now) }
    {
        let copies = copied_four(
            alloc,
            &self.schema,
            &self.description,
            &self.width,
            &self.height,
        )?;
        let (copies, group) = beside_copy(copies, &self.group, self.group.copy(alloc))?;
        let (schema, description, width, height) = copies;
        Ok(VgSpec {
            schema,
            description,
            width,
            height,
            padding: self.padding,
            autosize: self.autosize,
            group,
        })
    }
}

impl Copies for Size {
    fn copied(&self, alloc: Global) -> Result<Size, OutOfMemory> {
        match self {
            Size::Number(number) => Ok(Size::Number(*number)),
            Size::Signal(e) => Ok(Size::Signal(e.copy(alloc)?)),
        }
    }
}

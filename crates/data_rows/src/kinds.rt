// The kinds as which fields are parsed.
ghost use Rattle.std.specs.Prelude.{◌≡◌, IfOk};
ghost use Rattle.data_rows.specs.Parse.{kind_of};
ghost use Rattle.data_rows.specs.inner.Kinds.{AreKinds};

use std::alloc::Global;
use std::collections::BTreeMap;
use text_kit::{OutOfMemory, Text};

/// As what the texts of a field are parsed.
#[derive(Clone, Copy, Debug, PartialEq, Eq)]
pub enum ParseKind {
    /// A number.
    Number,
    /// True or false.
    Boolean,
    /// A text.
    Text,
    /// An instant.
    Date,
}

/// The kinds of fields, found by their names.
#[derive(Drop)]
pub(crate) struct Kinds<'a> {
    parse: &'a [(Text, ParseKind)],
    by_name: BTreeMap<&'a str, ParseKind>,
    ghost right: { AreKinds parse.now by_name },
}

// The kinds by the names: of several under one name the last.
fn by_name<'a>(
    alloc: Global,
    parse: &'a [(Text, ParseKind)],
) -> Result<BTreeMap<&'a str, ParseKind>, OutOfMemory>
    ensures { IfOk result (AreKinds parse.now) }
{
    let mut kinds = BTreeMap::new(alloc);
    for entry in parse {
        kinds.insert(entry.0.as_str(), entry.1)?;
    }
    Ok(kinds)
}

impl<'a> Kinds<'a> {
    /// The kinds of fields by their names: of several under one name the last.
    pub(crate) fn of(
        alloc: Global,
        parse: &'a [(Text, ParseKind)],
    ) -> Result<Kinds<'a>, OutOfMemory>
        ensures { IfOk result (λ kinds. kinds.parse.now ≡ parse.now) }
    {
        let by_name = by_name(alloc, parse)?;
        Ok(Kinds { parse, by_name })
    }

    /// The kind of a field; None where there is none under its name.
    pub(crate) fn of_field(&self, name: &str) -> Option<ParseKind>
        ensures { result ≡ kind_of self.now.parse.now name.now }
    {
        self.by_name.get(name).copied()
    }
}

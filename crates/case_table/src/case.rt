//! Names and their codes.
ghost use Rattle.std.specs.Prelude.{◌≡◌};
ghost use Rattle.case_table.specs.Case.{code_of};

/// A name and the code that stands for it.
#[derive(Clone, Copy, Debug)]
pub struct Case {
    pub name: &'static str,
    pub code: u16,
}

/// The code of the first case with this name; None exactly where there is none.
pub fn find(table: &[Case], name: &str) -> Option<u16>
    ensures { result ≡ code_of table.now name.now }
{
    let case = table.iter().find(|case| case.name == name)?;
    Some(case.code)
}

//! How many arguments a builtin takes.
ghost use Rattle.std.specs.Prelude.{◌≡◌, false, slice_get};
ghost use Rattle.std.specs.Option.{option_map_or};
ghost use Rattle.case_table.specs.Arguments.{admits};
ghost use Rattle.case_table.specs.inner.Arguments.{lets_pass};

/// The least and the greatest number of arguments that are admitted.
#[derive(Clone, Copy, Debug)]
pub struct Arguments {
    pub least: usize,
    pub most: usize,
}

macro_rules! arguments {
    ($($least:literal to $most:literal),*) => {
        [$(Arguments { least: $least, most: $most }),*]
    };
}

/// The numbers of arguments of each builtin, by its code.
pub const ARGUMENTS: [Arguments; 39] = arguments![
    1 to 1, 1 to 1, 1 to 1, 1 to 1, 1 to 1, 1 to 1, 1 to 1, 1 to 1, 1 to 1, 1 to 1, 1 to 1, 1 to 1, 2 to 8,
    2 to 8, 3 to 3, 3 to 3, 2 to 2, 1 to 1, 3 to 3, 1 to 1, 1 to 1, 1 to 1, 1 to 1, 1 to 1, 1 to 1, 1 to 1,
    1 to 1, 1 to 1, 1 to 1, 1 to 1, 1 to 1, 1 to 1, 1 to 1, 1 to 1, 1 to 1, 1 to 1, 1 to 1, 2 to 7, 2 to 7
];

/// Whether the builtin of this code may be called with so many arguments; no code that stands for none may be.
pub fn admits(code: u16, count: usize) -> bool
    ensures { result ≡ admits code count }
{
    admits_in(&ARGUMENTS, usize::from(code), count)
}

// Whether the numbers of arguments at this place of a table let so many pass.
fn admits_in(table: &[Arguments], place: usize, count: usize) -> bool
    ensures { result ≡ option_map_or (lets_pass count) (slice_get table.now place) false }
{
    match table.get(place) {
        Some(arguments) => arguments.least <= count && count <= arguments.most,
        None => false,
    }
}

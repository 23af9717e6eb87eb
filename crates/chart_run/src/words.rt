//! The forms of words that the program takes.
ghost use Rattle.std.specs.Prelude.{◌≡◌};
ghost use Rattle.std.specs.Option.{option_map};
ghost use Rattle.chart_run.specs.Words.{is_file_name, plainly_asked, asked_in};
ghost use Rattle.chart_run.specs.inner.Asking.{seen_ask};

/// What words ask for, with the name of the file of a specification.
#[derive(Clone, Copy, Debug)]
pub enum Asked<'a> {
    /// The picture.
    Render(&'a str),
    /// The replies to a script.
    Play(&'a str),
    /// The text of its Vega specification.
    Compile(&'a str),
}

// Whether a word names a file: it is not empty, and doesn't begin with `-`.
fn is_file_name(word: &str) -> bool
    ensures { result ≡ is_file_name word.now }
{
    match word.as_bytes() {
        [] => false,
        [first, ..] => *first != b'-',
    }
}

// What a word and the name of a file ask for.
fn plainly_asked<'a>(word: &str, name: &'a str) -> Option<Asked<'a>>
    ensures { option_map seen_ask result ≡ plainly_asked word.now name.now }
{
    if word == "render" {
        Some(Asked::Render(name))
    } else if word == "play" {
        Some(Asked::Play(name))
    } else if word == "compile" {
        Some(Asked::Compile(name))
    } else {
        None
    }
}

/// What the words ask for; None exactly where they are no form of words.
pub fn asked_of(words: &Vec<String>) -> Option<Asked<'_>>
    ensures { option_map seen_ask result ≡ asked_in words.now.items }
{
    match words.as_slice() {
        [word, name] if is_file_name(name.as_str()) => {
            plainly_asked(word.as_str(), name.as_str())
        }
        [word, flag, name]
            if word.as_str() == "play"
                && flag.as_str() == "--plain"
                && is_file_name(name.as_str()) => { Some(Asked::Play(name.as_str())) }
        _ => None,
    }
}

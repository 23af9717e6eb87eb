// The formats of labels.
ghost use Rattle.std.specs.Prelude.{◌≡◌, ◌≤◌, IfSome};
ghost use Rattle.guide_text.specs.Formats.{number_kind_of, ending_with, number_tail_of, number_format_of};

/// How a number format labels numbers.
#[derive(Clone, Copy, Debug, PartialEq, Eq)]
pub enum NumberKind {
    /// With decimals: `f`.
    Fixed,
    /// Without decimals: `d`.
    Whole,
    /// As hundredths, with decimals: `%`.
    Percent,
}

/// A number format.
#[derive(Clone, Copy, Debug, PartialEq, Eq)]
pub struct NumberFormat {
    /// Whether a comma stands between thousands.
    pub comma: bool,
    /// The decimals that it names, from 0 to 6.
    pub decimals: Option<u32>,
    /// How it labels numbers.
    pub kind: NumberKind,
}

// The kind of a number format by its end.
fn number_kind_of(bytes: &[u8]) -> Option<NumberKind>
    ensures { result ≡ number_kind_of bytes.now }
{
    match bytes {
        [b] => {
            if *b == b'f' {
                Some(NumberKind::Fixed)
            } else if *b == b'd' {
                Some(NumberKind::Whole)
            } else if *b == b'%' {
                Some(NumberKind::Percent)
            } else {
                None
            }
        }
        _ => None,
    }
}

// The number format with this comma and these decimals, by its end.
fn ending_with(comma: bool, decimals: Option<u32>, end: &[u8]) -> Option<NumberFormat>
    requires { IfSome decimals (λ n. n ≤ 6) }
    ensures value { result ≡ ending_with comma decimals end.now }
    ensures few { IfSome result (λ f. IfSome f.decimals (λ n. n ≤ 6)) }
{
    Some(NumberFormat {
        comma,
        decimals,
        kind: number_kind_of(end)?,
    })
}

// The number format without what stands before its decimals.
fn number_tail_of(comma: bool, bytes: &[u8]) -> Option<NumberFormat>
    ensures value { result ≡ number_tail_of comma bytes.now }
    ensures few { IfSome result (λ f. IfSome f.decimals (λ n. n ≤ 6)) }
{
    match bytes {
        [b, n, rest @ ..] => {
            if *b == b'.' {
                if b'0' <= *n && *n <= b'6' {
                    ending_with(comma, Some(u32::from(*n - b'0')), rest)
                } else {
                    None
                }
            } else {
                ending_with(comma, None, bytes)
            }
        }
        _ => ending_with(comma, None, bytes),
    }
}

/// The number format that a text is: `f`, `d` or `%`, before which `.n` may stand with `n` from 0 to 6, and before that `,`. None exactly
/// where it is none.
pub fn number_format_of(text: &str) -> Option<NumberFormat>
    ensures value { result ≡ number_format_of text.now }
    ensures few { IfSome result (λ f. IfSome f.decimals (λ n. n ≤ 6)) }
{
    format_in(text.as_bytes())
}

// The number format that bytes are.
#[tactic(auto, unfolding(crate::specs::Formats::number_format_of))]
fn format_in(bytes: &[u8]) -> Option<NumberFormat>
    ensures value { result ≡ number_format_of bytes.now }
    ensures few { IfSome result (λ f. IfSome f.decimals (λ n. n ≤ 6)) }
{
    match bytes {
        [] => None,
        [b, rest @ ..] => {
            if *b == b',' {
                number_tail_of(true, rest)
            } else {
                number_tail_of(false, bytes)
            }
        }
    }
}

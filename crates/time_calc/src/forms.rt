//! The forms in which a text gives an instant. In a form some letters stand for digits, and every other byte stands for itself.
ghost use Rattle.std.specs.Prelude.{◌≡◌, ◌≤◌, ◌==◌, IfSome, IsTrue, find, map, option_map};
ghost use Rattle.std.specs.List.{list_any, list_all, zip};
ghost use Rattle.time_calc.specs.Forms.{digit_letters, stands_for, fits, instant_form, value};
ghost use Rattle.time_calc.specs.Texts.{value_or_one};
ghost use Rattle.time_calc.specs.inner.Forms.{IsFormOf, are_short, first_fit, read_letters};

/// The letters that stand for digits: Y of the year, M of the month, D of the day of the month, h of hours, m of minutes,
/// s of seconds, i for tenths, j for hundredths and k for thousandths of a second, g for smaller parts, p and q of the hours
/// and minutes by which a zone is ahead of UTC, u and v of those by which it is behind.
const DIGIT_LETTERS: [u8; 14] = *b"YMDhmsijkgpquv";

macro_rules! forms {
    ($($date:literal),*; $($time:literal),*) => {
        [
            $($date,)*
            $(
                concat!("YYYY-MM-DDT", $time),
                concat!("YYYY-MM-DD ", $time),
                concat!("YYYY-MM-DDT", $time, "Z"),
                concat!("YYYY-MM-DD ", $time, "Z"),
                concat!("YYYY-MM-DDT", $time, "+pp:qq"),
                concat!("YYYY-MM-DD ", $time, "+pp:qq"),
                concat!("YYYY-MM-DDT", $time, "-uu:vv"),
                concat!("YYYY-MM-DD ", $time, "-uu:vv"),
            )*
        ]
    };
}

/// The forms of a date alone, and those of a date, a time of day and a zone.
const FORMS: [&str; 94] = forms![
    "YYYY", "YYYY-MM", "YYYY-MM-DD", "YYYY/MM/DD", "BBB D YYYY", "BBB DD YYYY";
    "hh:mm", "hh:mm:ss", "hh:mm:ss.i", "hh:mm:ss.ij", "hh:mm:ss.ijk", "hh:mm:ss.ijkg", "hh:mm:ss.ijkgg",
    "hh:mm:ss.ijkggg", "hh:mm:ss.ijkgggg", "hh:mm:ss.ijkggggg", "hh:mm:ss.ijkgggggg"
];

/// Whether a byte of a form stands for a digit.
fn is_digit_letter(form: u8) -> bool
    ensures { result ≡ list_any (λ letter. letter == form) digit_letters }
{
    DIGIT_LETTERS.iter().any(|letter| *letter == form)
}

/// Whether a byte of a form stands for a byte of a text: the letters for digits, and B for any byte of the name of a month.
fn stands_for(form: u8, byte: u8) -> bool
    ensures { result ≡ stands_for form byte }
{
    if is_digit_letter(form) {
        byte.is_ascii_digit()
    } else {
        form == b'B' || form == byte
    }
}

/// Whether the bytes of a form stand for those of a text as far as both go.
fn all_stand(form: &[u8], text: &[u8]) -> bool
    ensures { result ≡ list_all (λ p. stands_for p.0 p.1) (zip form.now text.now) }
{
    form.iter()
        .zip(text)
        .all(|(form, byte)| stands_for(*form, *byte))
}

/// Whether a text has a form.
#[tactic(auto, using(crate::proofs::FormLemmas::fits_by_pairs, crate::proofs::FormLemmas::other_length))]
fn fits(form: &[u8], text: &[u8]) -> bool
    ensures { result ≡ fits form.now text.now }
{
    form.len() == text.len() && all_stand(form, text)
}

/// The first of some forms that a text has.
fn form_among(forms: &[&'static str], text: &[u8]) -> Option<&'static str>
    ensures { result ≡ find (λ form. fits form.now text.now) forms.now }
{
    for form in forms {
        if fits(form.as_bytes(), text) {
            return Some(*form);
        }
    }
    None
}

/// The first of some forms that a text has, which is short where all of them are.
fn short_form_among(forms: &[&'static str], text: &[u8]) -> Option<&'static str>
    ensures value { option_map (λ form. form.now) result ≡ first_fit (map (λ form. form.now) forms.now) text.now }
    ensures form { IsTrue (are_short (map (λ form. form.now) forms.now)) → IfSome result (λ form. IsFormOf text.now form.now) }
{
    form_among(forms, text)
}

/// The form that a text has.
pub(crate) fn form_of(text: &[u8]) -> Option<&'static str>
    ensures value { option_map (λ form. form.now) result ≡ instant_form text.now }
    ensures form { IfSome result (λ form. IsFormOf text.now form.now) }
{
    short_form_among(&FORMS, text)
}

/// The number that the digits make for which a letter of a form stands in a text.
pub(crate) fn value(letter: u8, form: &[u8], text: &[u8]) -> u32
    requires form { IsFormOf text.now form.now }
    requires letter { IsTrue (list_any (λ l. l == letter) read_letters) }
    ensures value { result ≡ value letter form.now text.now }
    ensures bound { result ≤ 9_999 }
{
    let mut number = 0;
    for (i, f) in form.iter().enumerate() {
        if *f == letter {
            number = number * 10 + u32::from(text[i].saturating_sub(b'0'));
        }
    }
    number
}

/// Whether a form has a letter.
fn has_letter(letter: u8, form: &[u8]) -> bool
    ensures { result ≡ list_any (λ f. f == letter) form.now }
{
    form.iter().any(|f| *f == letter)
}

/// The number that the digits of a letter make, and 1 where the form lacks the letter.
pub(crate) fn value_or_one(letter: u8, form: &[u8], text: &[u8]) -> u32
    requires form { IsFormOf text.now form.now }
    requires letter { IsTrue (list_any (λ l. l == letter) read_letters) }
    ensures value { result ≡ value_or_one letter form.now text.now }
    ensures bound { result ≤ 9_999 }
{
    if has_letter(letter, form) {
        value(letter, form, text)
    } else {
        1
    }
}

// The parts of a JSON number, as they stand in its bytes.
ghost use Rattle.std.specs.Prelude.{◌≡◌, ◌==◌, ◌≤◌, IfOk, length};
ghost use Rattle.std.specs.List.{prefix_len};
ghost use Rattle.std.specs.Char.{is_ascii_digit};
ghost use Rattle.std.specs.Result.{result_map_both};
ghost use Rattle.fixed_num.specs.JsonNumber.{AreDigits};
ghost use Rattle.fixed_num.specs.Front.{first, leading_digits, after_digits, digits_at, whole_at, fraction_at, after_sign, signed_at};
ghost use Rattle.fixed_num.specs.Front.{exponent_at, after_minus, parts_at};
ghost use Rattle.fixed_num.specs.inner.View.{exponent, parts};

/// The digits of an exponent, with a minus or without; none where there is no exponent.
#[derive(Clone, Copy)]
pub(crate) struct Exponent<'a> {
    pub minus: bool,
    pub digits: &'a [u8],
}

/// A minus or none, the digits before and after the point, and the exponent.
#[derive(Clone, Copy)]
pub(crate) struct JsonNumber<'a> {
    pub minus: bool,
    pub whole: &'a [u8],
    pub fraction: &'a [u8],
    pub exponent: Exponent<'a>,
}

// Each of these finds a part at the front, and the bytes after it; an error is how many bytes are left where nothing goes on.

// How many digits stand in front.
fn digits_len(bytes: &[u8]) -> usize
    ensures value { result ≡ prefix_len is_ascii_digit bytes.now }
    ensures within { result ≤ length bytes.now }
{
    bytes.iter().take_while(|b| b.is_ascii_digit()).count()
}

// The digits in front, and what comes after them.
#[tactic(auto, using(crate::proofs::Numerals::digits_by_length))]
fn split_digits(bytes: &[u8]) -> (&[u8], &[u8])
    ensures digits { result.0.now ≡ leading_digits bytes.now }
    ensures rest { result.1.now ≡ after_digits bytes.now }
{
    bytes.split_at(digits_len(bytes))
}

// One or more digits.
#[tactic(auto, using(crate::proofs::Numerals::leading_are_digits), unfolding(crate::specs::Front::digits_at))]
fn digits_of(bytes: &[u8]) -> Result<(&[u8], &[u8]), usize>
    ensures value { result_map_both (λ x. (x.0.now, x.1.now)) (λ left. left) result ≡ digits_at bytes.now }
    ensures digits { IfOk result (λ x. AreDigits x.0.now) }
{
    match bytes {
        [first, ..] if first.is_ascii_digit() => Ok(split_digits(bytes)),
        _ => Err(bytes.len()),
    }
}

// A whole part: one zero, or digits without a zero in front.
#[tactic(auto, unfolding(crate::specs::Front::whole_at))]
fn whole_of(bytes: &[u8]) -> Result<(&[u8], &[u8]), usize>
    ensures { result_map_both (λ x. (x.0.now, x.1.now)) (λ left. left) result ≡ whole_at bytes.now }
{
    match bytes {
        [b'0', rest @ ..] => Ok((&[b'0'], rest)),
        _ => digits_of(bytes),
    }
}

// The digits of a fraction: none, or one or more after a point.
#[tactic(auto, unfolding(crate::specs::Front::fraction_at))]
fn fraction_of(bytes: &[u8]) -> Result<(&[u8], &[u8]), usize>
    ensures { result_map_both (λ x. (x.0.now, x.1.now)) (λ left. left) result ≡ fraction_at bytes.now }
{
    match bytes {
        [b'.', rest @ ..] => digits_of(rest),
        _ => Ok((&[], bytes)),
    }
}

// Whether a minus stands in front, and what comes after a sign or none.
fn split_sign(bytes: &[u8]) -> (bool, &[u8])
    ensures minus { result.0 ≡ (first bytes.now == 45) }
    ensures rest { result.1.now ≡ after_sign bytes.now }
{
    match bytes {
        [b'-', rest @ ..] => (true, rest),
        [b'+', rest @ ..] => (false, rest),
        _ => (false, bytes),
    }
}

// Digits behind a sign or none.
#[tactic(auto, unfolding(crate::specs::Front::signed_at))]
fn signed_digits(bytes: &[u8]) -> Result<(Exponent<'_>, &[u8]), usize>
    ensures value { result_map_both (λ x. (exponent x.0, x.1.now)) (λ left. left) result ≡ signed_at bytes.now }
    ensures digits { IfOk result (λ x. AreDigits x.0.digits.now) }
{
    let (minus, digits) = split_sign(bytes);
    let (digits, rest) = digits_of(digits)?;
    Ok((Exponent { minus, digits }, rest))
}

// An exponent: nothing, or a mark before digits behind a sign or none.
#[tactic(auto, unfolding(crate::specs::Front::exponent_at))]
fn exponent_of(bytes: &[u8]) -> Result<(Exponent<'_>, &[u8]), usize>
    ensures value { result_map_both (λ x. (exponent x.0, x.1.now)) (λ left. left) result ≡ exponent_at bytes.now }
    ensures digits { IfOk result (λ x. AreDigits x.0.digits.now) }
{
    match bytes {
        [b'e' | b'E', rest @ ..] => signed_digits(rest),
        _ => Ok((
            Exponent {
                minus: false,
                digits: &[],
            },
            bytes,
        )),
    }
}

// Whether a minus stands in front, and what comes after it.
fn split_minus(bytes: &[u8]) -> (bool, &[u8])
    ensures minus { result.0 ≡ (first bytes.now == 45) }
    ensures rest { result.1.now ≡ after_minus bytes.now }
{
    match bytes {
        [b'-', rest @ ..] => (true, rest),
        _ => (false, bytes),
    }
}

impl JsonNumber<'_> {
    /// The parts of the number at the front, and the bytes after it.
    #[tactic(auto, unfolding(crate::specs::Front::parts_at))]
    pub(crate) fn at_front(bytes: &[u8]) -> Result<(JsonNumber<'_>, &[u8]), usize>
        ensures value { result_map_both (λ x. (parts x.0, x.1.now)) (λ left. left) result ≡ parts_at bytes.now }
        ensures digits { IfOk result (λ x. AreDigits x.0.exponent.digits.now) }
    {
        let (minus, rest) = split_minus(bytes);
        let (whole, rest) = whole_of(rest)?;
        let (fraction, rest) = fraction_of(rest)?;
        let (exponent, rest) = exponent_of(rest)?;
        let number = JsonNumber {
            minus,
            whole,
            fraction,
            exponent,
        };
        Ok((number, rest))
    }
}

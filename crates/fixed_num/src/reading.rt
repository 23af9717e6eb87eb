// Numbers read from decimals.
ghost use Rattle.std.specs.Prelude.{◌≡◌, ◌↔◌, Result, Ok, Err, ℤ, IfOk, IsErrOf};
ghost use Rattle.std.specs.Result.{result_map_both};
ghost use Rattle.fixed_num.specs.Number.{IsNumber};
ghost use Rattle.fixed_num.specs.JsonNumber.{Reads, IsJsonNumber};
ghost use Rattle.fixed_num.specs.Front.{decimal_at};
ghost use Rattle.fixed_num.specs.declared.reading.NumFault.TheVariants.{Shape, Range};

use crate::json_number::JsonNumber;
use crate::num::Num;

/// Why bytes are not read as a number.
#[derive(Clone, Copy, Debug, PartialEq, Eq, Drop)]
pub enum NumFault {
    /// They are not a JSON number.
    Shape,
    /// They are one, and its rounded value is out of range.
    Range,
}

impl Num {
    /// The JSON number at the front of the bytes, which takes as many of them as go on with it, rounded to the nearest millionth,
    /// the middle going upward (None exactly where that is out of range), and the bytes after it. An error is how many bytes are left
    /// where no byte that a number needs follows.
    pub fn read_front(bytes: &[u8]) -> Result<(Option<Num>, &[u8]), usize>
        ensures { result_map_both (λ x. (x.0, x.1.now)) (λ left. left) result ≡ decimal_at bytes.now }
    {
        match JsonNumber::at_front(bytes) {
            Ok((number, rest)) => Ok((number.value(), rest)),
            Err(left) => Err(left),
        }
    }

    /// The number that the bytes are: a JSON number, rounded to the nearest millionth, the middle going upward.
    /// `Shape` exactly where they are no JSON number, `Range` exactly where the rounded value is out of range.
    pub fn read_decimal(b: &[u8]) -> Result<Num, NumFault>
        ensures number { IfOk result (λ n. Reads b.now n) }
        ensures shape { IsErrOf result Shape ↔ ¬ IsJsonNumber b.now }
        ensures range { IsErrOf result Range ↔ ((m : ℤ) × Reads b.now m × ¬ IsNumber m) }
    {
        match Num::read_front(b) {
            Ok((number, [])) => number.ok_or(NumFault::Range),
            Ok((_, [_, ..])) => Err(NumFault::Shape),
            Err(_) => Err(NumFault::Shape),
        }
    }
}

//! Numbers, read from the front of the bytes.

ghost use Rattle.text_kit.specs.Answer.{GivesAs};
ghost use Rattle.json_exact.specs.inner.Reader.{cause, number_at};

use crate::error::ReadStop;
use crate::json::Json;
use fixed_num::Num;

/// The number at the front, and the bytes after it.
#[tactic(auto, using(crate::proofs::Trees::number_trees))]
pub fn number_of(bytes: &[u8]) -> Result<(Json, &[u8]), ReadStop>
    ensures { GivesAs (λ x. (x.0, x.1.now)) cause result (number_at bytes.now) }
{
    match Num::read_front(bytes) {
        Ok((Some(number), rest)) => Ok((Json::Number(number), rest)),
        Ok((None, rest)) => Ok((Json::Huge, rest)),
        Err(left) => Err(ReadStop::Fault { left }),
    }
}

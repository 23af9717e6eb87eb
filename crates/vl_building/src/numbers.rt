// Numbers within their bounds.
ghost use Rattle.std.specs.Prelude.{◌≡◌};
ghost use Rattle.fixed_num.specs.Ranges.{is_within};
ghost use Rattle.spec_schema.specs.Values.{is_whole};
ghost use Rattle.vl_building.specs.Numbers.{between, number_between, count_between, is_angle, angle_at};

use fixed_num::Num;
use json_exact::Member;
use tree_readers::number_at;

// The millionths of 1.
const MILLION: i128 = 1_000_000;

// Whether a number lies between two bounds in millionths, both included.
fn is_within(number: Num, least: i128, most: i128) -> bool
    ensures { result ≡ is_within least most number }
{
    least <= number.millionths() && number.millionths() <= most
}

/// Whether a number is a whole number.
pub fn is_whole(number: Num) -> bool
    ensures { result ≡ is_whole number }
{
    number.millionths() % MILLION == 0
}

/// A number that lies between two bounds in millionths, both included.
pub fn between(number: Num, least: i128, most: i128) -> Option<Num>
    ensures { result ≡ between least most number }
{
    if is_within(number, least, most) {
        Some(number)
    } else {
        None
    }
}

/// The number under a name that lies between two bounds in millionths, both included.
pub fn number_between(members: &[Member], name: &str, least: i128, most: i128) -> Option<Num>
    ensures { result ≡ number_between least most members.now name.now }
{
    between(number_at(members, name)?, least, most)
}

/// The whole number under a name that does.
pub fn count_between(members: &[Member], name: &str, least: i128, most: i128) -> Option<Num>
    ensures { result ≡ count_between least most members.now name.now }
{
    let number = number_at(members, name)?;
    if is_whole(number) && is_within(number, least, most) {
        Some(number)
    } else {
        None
    }
}

// Whether a number is an angle of labels.
fn is_angle(number: Num) -> bool
    ensures { result ≡ is_angle number }
{
    is_within(number, 0, 0)
        || is_within(number, -90_000_000, -90_000_000)
        || is_within(number, 270_000_000, 270_000_000)
}

/// The angle of labels under a name.
pub fn angle_at(members: &[Member], name: &str) -> Option<Num>
    ensures { result ≡ angle_at members.now name.now }
{
    let number = number_at(members, name)?;
    if is_angle(number) { Some(number) } else { None }
}

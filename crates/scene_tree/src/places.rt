// Places along an axis, in millionths of a pixel.
ghost use Rattle.std.specs.Prelude.{◌≡◌, ◌*◌, ◌≤◌, pos, ◌+ℤ◌, ◌-ℤ◌, ◌*ℤ◌, unsigned_abs};
ghost use Rattle.fixed_num.specs.Number.{limit};
ghost use Rattle.fixed_num.specs.Ranges.{is_within};

use fixed_num::Num;
use std::marker::Model;

/// A place in a panel along an axis, in millionths of a pixel from its origin. Contracts see it as that count.
#[derive(Clone, Copy)]
pub(crate) struct Place {
    count: i128,
}

impl Model for Place {
    ghost use Rattle.std.specs.Prelude.{ℤ, ◌*◌, ◌≤◌, unsigned_abs};
    ghost use Rattle.fixed_num.specs.Number.{limit};

    ghost Value = { ℤ };

    ghost view = { λ place. place.count };

    ghost invariant = { λ place. unsigned_abs place.count ≤ 2 * limit };

    ghost inverse = { λ m. record { count = m } };
}

impl Place {
    /// The place of a point of the picture in a panel with this origin.
    pub(crate) fn from(origin: Num, at: Num) -> Place
        ensures { result ≡ at -ℤ origin }
    {
        Place {
            count: at.millionths() - origin.millionths(),
        }
    }

    /// Whether the place is between two edges, or on one of them: that at `low`, and one that is `size` farther.
    pub(crate) fn is_between(self, low: Num, size: Num) -> bool
        ensures { result ≡ is_within low (low +ℤ size) self }
    {
        let first = low.millionths();
        first <= self.count && self.count <= first + size.millionths()
    }

    /// How far the place is from another.
    pub(crate) fn distance(self, other: Num) -> u128
        ensures value { result ≡ unsigned_abs (self -ℤ other) }
        ensures in_reach { result ≤ 3 * limit }
    {
        (self.count - other.millionths()).unsigned_abs()
    }
}

/// Twice a place, as the middle between two places need not be a whole count. Contracts see it as the doubled count.
#[derive(Clone, Copy)]
pub(crate) struct Twice {
    count: i128,
}

impl Model for Twice {
    ghost use Rattle.std.specs.Prelude.{ℤ, ◌*◌, ◌≤◌, unsigned_abs};
    ghost use Rattle.fixed_num.specs.Number.{limit};

    ghost Value = { ℤ };

    ghost view = { λ twice. twice.count };

    ghost invariant = { λ twice. unsigned_abs twice.count ≤ 4 * limit };

    ghost inverse = { λ m. record { count = m } };
}

impl Twice {
    /// Twice this place.
    pub(crate) fn of(place: Place) -> Twice
        ensures { result ≡ pos 2 *ℤ place }
    {
        Twice {
            count: 2 * place.count,
        }
    }

    /// Twice the place that is so far before the middle between two others.
    pub(crate) fn before_middle(r: Num, least: Num, greatest: Num) -> Twice
        ensures { result ≡ least +ℤ greatest -ℤ pos 2 *ℤ r }
    {
        Twice {
            count: least.millionths() + greatest.millionths() - 2 * r.millionths(),
        }
    }

    /// Twice the place that is so far behind the middle between two others.
    pub(crate) fn behind_middle(r: Num, least: Num, greatest: Num) -> Twice
        ensures { result ≡ least +ℤ greatest +ℤ pos 2 *ℤ r }
    {
        Twice {
            count: least.millionths() + greatest.millionths() + 2 * r.millionths(),
        }
    }

    /// Whether it is between two others, or one of them.
    pub(crate) fn is_between(self, first: Twice, last: Twice) -> bool
        ensures { result ≡ is_within first last self }
    {
        first.count <= self.count && self.count <= last.count
    }
}

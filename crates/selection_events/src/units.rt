// Numbers of units.
ghost use Rattle.std.specs.Prelude.{◌≡◌, true};
ghost use Rattle.std.specs.List.Sorted.{IsNonDecreasing};
ghost use Rattle.selection_events.specs.Hits.{is_among};

use std::marker::Model;

/// Numbers of units. Whether one is among them is found by halves where they rise, else one by one. Contracts see them as their list.
#[derive(Drop)]
pub(crate) struct Units<'a> {
    numbers: &'a [u32],
    rise: bool,
}

impl<'a> Model for Units<'a> {
    ghost use Rattle.std.specs.Prelude.{◌≡◌, true, ℕ, List};
    ghost use Rattle.std.specs.Coded.{coded_list, coded_ℕ};
    ghost use Rattle.std.specs.List.Sorted.{IsNonDecreasing};

    ghost Value = { List ℕ };

    ghost view = { λ units. units.numbers.now };

    ghost coded = { coded_list coded_ℕ };

    ghost invariant = { λ units. units.rise ≡ true → IsNonDecreasing units.numbers.now };
}

// Whether numbers rise.
fn rise(numbers: &[u32]) -> bool
    ensures { result ≡ true → IsNonDecreasing numbers.now }
{
    numbers.is_sorted()
}

// Whether one is among numbers that rise.
#[tactic(auto, using(crate::proofs::UnitLemmas::found))]
fn is_among_rising(numbers: &[u32], unit: u32) -> bool
    requires { IsNonDecreasing numbers.now }
    ensures { result ≡ is_among numbers.now unit }
{
    match numbers.binary_search(&unit) {
        Ok(_) => true,
        Err(_) => false,
    }
}

// Whether one is among any numbers.
fn is_among_any(numbers: &[u32], unit: u32) -> bool
    ensures { result ≡ is_among numbers.now unit }
{
    numbers.iter().any(|u| *u == unit)
}

impl<'a> Units<'a> {
    /// These numbers.
    pub(crate) fn of(numbers: &'a [u32]) -> Units<'a>
        ensures { result ≡ numbers.now }
    {
        Units {
            numbers,
            rise: rise(numbers),
        }
    }

    /// Whether one is among them.
    pub(crate) fn has(&self, unit: u32) -> bool
        ensures { result ≡ is_among self.now unit }
    {
        if self.rise {
            is_among_rising(self.numbers, unit)
        } else {
            is_among_any(self.numbers, unit)
        }
    }
}

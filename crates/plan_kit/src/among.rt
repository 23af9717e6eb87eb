// Whether a number is among some.
ghost use Rattle.std.specs.Prelude.{◌≡◌};
ghost use Rattle.plan_kit.specs.Among.{is_among};

/// Whether a number is one of some.
pub fn is_among(numbers: &[u32], number: usize) -> bool
    ensures { result ≡ is_among numbers.now number }
{
    for one in numbers {
        if *one as usize == number {
            return true;
        }
    }
    false
}

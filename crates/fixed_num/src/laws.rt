// Laws that callers build on.
ghost use Rattle.fixed_num.specs.Laws.{RoundedKeepsOrder, RoundedIsExact, MiddleGoesUp, FlooredIsMultiple, CeiledIsMultiple, OneRoot};
ghost use Rattle.fixed_num.specs.Laws.{RatioIsFraction, RootOfIsRoot, WrittenIsRead, OneValue, FrontIsSpelled, SpelledIsFront};

/// Rounding keeps the order, leaves whole numbers as they are, and takes the middle upward;
/// multiples are less than a step away; a number has one root.
pub fn laws_of_numbers()
    ensures rounded_keeps_order { RoundedKeepsOrder }
    ensures rounded_is_exact { RoundedIsExact }
    ensures middle_goes_up { MiddleGoesUp }
    ensures floored_is_multiple { FlooredIsMultiple }
    ensures ceiled_is_multiple { CeiledIsMultiple }
    ensures ratio_is_fraction { RatioIsFraction }
    ensures one_root { OneRoot }
    ensures root_of_is_root { RootOfIsRoot }
{}

/// What is written of a number is read as that number, and no bytes are two numbers. What is found at the front of bytes is spelled there,
/// and what is spelled before a byte that can't go on is found whole.
pub fn laws_of_decimals()
    ensures written_is_read { WrittenIsRead }
    ensures one_value { OneValue }
    ensures front_is_spelled { FrontIsSpelled }
    ensures spelled_is_front { SpelledIsFront }
{}

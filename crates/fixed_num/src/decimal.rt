// Numbers written as decimals.
ghost use Rattle.std.specs.Prelude.{◌≡◌, ◌+◌, ◌<◌, ◌≤◌, ◌++◌, length, take};
ghost use Rattle.fixed_num.specs.Number.{limit, million};
ghost use Rattle.fixed_num.specs.Decimal.{fraction_spelling, size_spelling, spelling};

use crate::num::{MILLION, Num};

// Writes bytes from `at` on, and answers where they end.
fn put(buf: &mut [u8; 32], at: usize, bytes: &[u8]) -> usize
    requires { at + length bytes.now ≤ 32 }
    ensures end { result ≡ at + length bytes.now }
    ensures written { take result buf.new ≡ take at buf.old ++ bytes.now }
{
    let end = at + bytes.len();
    buf[at..end].copy_from_slice(bytes);
    end
}

// Writes a count of millionths below one from `at` on, and answers where it ends.
fn put_fraction(buf: &mut [u8; 32], at: usize, fraction: u32) -> usize
    requires room { at + 7 ≤ 32 }
    requires below_one { fraction < million }
    ensures bound { result ≤ at + 7 }
    ensures written { take result buf.new ≡ take at buf.old ++ fraction_spelling fraction }
{
    if fraction == 0 {
        return at;
    }
    buf[at] = b'.';
    let mut end = at + 1;
    let mut rest = fraction;
    let mut places = 6;
    while rest > 0 {
        places -= 1;
        let place = 10_u32.pow(places);
        buf[end] = b'0' + (rest / place) as u8;
        rest %= place;
        end += 1;
    }
    end
}

// Writes a count of millionths from `at` on, and answers where it ends.
#[tactic(auto, unfolding(crate::specs::Decimal::size_spelling))]
fn put_size(buf: &mut [u8; 32], at: usize, size: u128) -> usize
    requires room { at ≤ 1 }
    requires in_range { size ≤ limit }
    ensures bound { result ≤ at + 23 }
    ensures written { take result buf.new ≡ take at buf.old ++ size_spelling size }
{
    let mut digits = itoa::Buffer::new();
    let whole = digits.format((size / MILLION) as u64);
    let end = put(buf, at, whole.as_bytes());
    put_fraction(buf, end, (size % MILLION) as u32)
}

impl Num {
    /// Writes the one spelling of the number into the first bytes of `buf`, and answers how many they are.
    pub fn write_decimal(self, buf: &mut [u8; 32]) -> usize
        ensures spelled { take result buf.new ≡ spelling self }
        ensures short { result ≤ 24 }
    {
        let count = self.millionths();
        if count < 0 {
            buf[0] = b'-';
            put_size(buf, 1, count.unsigned_abs())
        } else {
            put_size(buf, 0, count.unsigned_abs())
        }
    }
}

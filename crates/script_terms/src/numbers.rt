//! The numbers that digits stand for.

ghost use Rattle.std.specs.Prelude.{◌≡◌, ◌≤◌, ◌^◌, length, MatchOption};
ghost use Rattle.std.specs.Char.{digit_value};
ghost use Rattle.std.specs.Str.Parse.{digits_value};

/// The number of so many digits to a radix of at most 16 has at most 64 bits.
pub const FEW: usize = 15;

/// The number of these digits to a radix; None where it has more than 128 bits. Digits behind these bits aren't read.
pub fn number_of(radix: u128, digits: &[u8]) -> Option<u128>
    requires { 1 ≤ radix }
    ensures { MatchOption result (2 ^ 128 ≤ digits_value radix digits.now) (λ n. n ≡ digits_value radix digits.now) }
{
    if radix <= 16 && digits.len() <= FEW {
        return Some(u128::from(short_number(radix as u64, digits)));
    }
    long_number(radix, digits)
}

/// The number of few digits.
pub fn short_number(radix: u64, digits: &[u8]) -> u64
    requires radix { radix ≤ 16 }
    requires few { length digits.now ≤ 15 }
    ensures { result ≡ digits_value radix digits.now }
{
    let mut number = 0;
    for digit in digits {
        number = number * radix + u64::from(digit_value(*digit));
    }
    number
}

fn long_number(radix: u128, digits: &[u8]) -> Option<u128>
    requires { 1 ≤ radix }
    ensures { MatchOption result (2 ^ 128 ≤ digits_value radix digits.now) (λ n. n ≡ digits_value radix digits.now) }
{
    let mut number: u128 = 0;
    for digit in digits {
        let shifted = number.checked_mul(radix)?;
        number = shifted.checked_add(u128::from(digit_value(*digit)))?;
    }
    Some(number)
}

/// The value of a digit; a byte that is no digit counts as one of value 36.
pub fn digit_value(digit: u8) -> u8
    ensures value { result ≡ digit_value digit }
    ensures small { result ≤ 36 }
{
    match digit {
        b'0'..=b'9' => digit - b'0',
        b'A'..=b'Z' => digit - b'A' + 10,
        b'a'..=b'z' => digit - b'a' + 10,
        _ => 36,
    }
}

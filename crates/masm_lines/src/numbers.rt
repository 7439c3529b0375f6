//! Numbers.
ghost use Rattle.std.specs.Prelude.{◌≡◌, ◌≤◌, ◌^◌, IfSome, min, option_map, pos, neg_ℤ, ◌*◌, ◌+◌, ◌⊎◌};
ghost use Rattle.masm_lines.specs.Tokens.{natural_of, number_of};

/// No range reaches so far; larger numbers count as this one.
const LIMIT: u64 = 1 << 40;

/// The number that digits of a radix, 10 or 16, write.
#[tactic(auto, unfolding(crate::specs::Tokens::natural_of))]
pub fn natural(radix: u32, digits: &[u8]) -> Option<u64>
    requires { (radix ≡ 10) ⊎ (radix ≡ 16) }
    ensures value { result ≡ natural_of radix digits.now }
    ensures small { IfSome result (λ n. n ≤ 2 ^ 40) }
{
    if digits.is_empty() {
        return None;
    }
    let mut value = 0;
    for c in digits {
        let digit = char::from(*c).to_digit(radix)?;
        value = with_digit(value, radix, digit);
    }
    Some(value)
}

/// A number with one digit more at its end.
fn with_digit(value: u64, radix: u32, digit: u32) -> u64
    requires value { value ≤ 2 ^ 40 }
    requires radix { radix ≤ 16 }
    requires digit { digit ≤ 16 }
    ensures { result ≡ min (value * radix + digit) (2 ^ 40) }
{
    (value * u64::from(radix) + u64::from(digit)).min(LIMIT)
}

/// The number below 0 of this size.
fn negated(magnitude: u64) -> i64
    requires { magnitude ≤ 2 ^ 40 }
    ensures { result ≡ neg_ℤ (pos magnitude) }
{
    -(magnitude as i64)
}

/// The number that decimal digits behind a `-` write.
fn negative(digits: &[u8]) -> Option<i64>
    ensures { result ≡ option_map (λ n. neg_ℤ (pos n)) (natural_of 10 digits.now) }
{
    match natural(10, digits) {
        Some(magnitude) => Some(negated(magnitude)),
        None => None,
    }
}

/// The number that digits of a radix, 10 or 16, write.
fn positive(radix: u32, digits: &[u8]) -> Option<i64>
    requires { (radix ≡ 10) ⊎ (radix ≡ 16) }
    ensures { result ≡ option_map pos (natural_of radix digits.now) }
{
    match natural(radix, digits) {
        Some(magnitude) => Some(magnitude as i64),
        None => None,
    }
}

/// The number that a text is: decimal digits, with a `-` or without, or `0x` and hexadecimal digits.
#[tactic(auto, unfolding(crate::specs::Tokens::number_of))]
pub fn number(text: &[u8]) -> Option<i64>
    ensures { result ≡ number_of text.now }
{
    match text {
        [b'-', digits @ ..] => negative(digits),
        [b'0', b'x', digits @ ..] => positive(16, digits),
        digits => positive(10, digits),
    }
}

//! Numbers.
ghost use Rattle.std.specs.Prelude.{◌≡◌, ◌⊎◌};
ghost use Rattle.line_words.specs.Numbers as spec;

/// The most digits that a hexadecimal number has.
const MOST_HEX_DIGITS: usize = 8;

/// The number below 2^32 that digits of a radix, 10 or 16, write.
#[tactic(auto, unfolding(crate::specs::Numbers::natural_of))]
fn natural(radix: u32, digits: &[u8]) -> Option<u32>
    requires { (radix ≡ 10) ⊎ (radix ≡ 16) }
    ensures { result ≡ spec.natural_of radix digits.now }
{
    if digits.is_empty() {
        return None;
    }
    let mut value: u32 = 0;
    for c in digits {
        let digit = char::from(*c).to_digit(radix)?;
        value = value.checked_mul(radix)?.checked_add(digit)?;
    }
    Some(value)
}

/// The number that decimal digits write: one digit at least, and less than 2^32. Zeros may lead it.
pub fn decimal(word: &[u8]) -> Option<u32>
    ensures { result ≡ spec.decimal_of word.now }
{
    natural(10, word)
}

/// The number that 1 to 8 hexadecimal digits write, of either case.
#[tactic(auto, unfolding(crate::specs::Numbers::hexadecimal_of))]
pub fn hexadecimal(word: &[u8]) -> Option<u32>
    ensures { result ≡ spec.hexadecimal_of word.now }
{
    if word.len() > MOST_HEX_DIGITS {
        return None;
    }
    natural(16, word)
}

//! The numbers that digits write.

ghost use Rattle.std.specs.Prelude.{◌≡◌, ℕ, ◌∷◌, min, List};
ghost use Rattle.spectra_resolved.specs.Numbers.{written_after, beyond, number_of as number_of_lem, signed as signed_lem};

// The least number past all that are allowed.
const BEYOND: u64 = 1_000_000_000_001;

#[tactic(auto, using(crate::proofs::Digits::written))]
// The number with one more digit. What passes 64 bits is held at the greatest one of them.
fn with_digit(number: u64, digit: u8) -> u64
    ensures { (rest : List ℕ) → min (written_after result rest) beyond ≡ min (written_after number (digit ∷ rest)) beyond }
{
    number
        .saturating_mul(10)
        .saturating_add(u64::from(digit.saturating_sub(48)))
}

/// The number that digits write, at most 10^12 + 1.
pub fn number_of(digits: &str) -> i64
    ensures { result ≡ number_of_lem digits.now }
{
    let mut number = 0u64;
    for digit in digits.as_bytes() {
        number = with_digit(number, *digit);
    }
    number.min(BEYOND) as i64
}

/// The number that digits write behind a `-`, or without one.
pub fn signed(negative: bool, digits: &str) -> i64
    ensures { result ≡ signed_lem negative digits.now }
{
    let number = number_of(digits);
    if negative { -number } else { number }
}

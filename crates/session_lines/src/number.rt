//! Whole numbers in decimal.

ghost use Rattle.std.specs.Prelude.{◌≡◌, ◌≢◌, ◌≤◌, ◌<◌, ◌^◌, ℤ, Some, length, take, IfSome, IfNone};
ghost use Rattle.std.specs.Fmt.{decimal, signed_decimal};
ghost use lib.Signed.{mag};

/// The greatest number of bytes of a number, its sign included.
pub const MOST_DIGITS: usize = 20;

// Writes a number at the front of `buffer`, and says how many digits it has.
fn put_digits(buffer: &mut [u8], n: u64) -> usize
    requires { length (decimal n) ≤ length buffer.old }
    ensures within { result ≤ length buffer.new }
    ensures text { take result buffer.new ≡ decimal n }
{
    if n < 10 {
        buffer[0] = b'0' + n as u8;
        return 1;
    }
    let count = put_digits(buffer, n / 10);
    buffer[count] = b'0' + (n % 10) as u8;
    count + 1
}

/// Writes a count at the front of `buffer`, and says how many digits it has.
pub fn put_count(buffer: &mut [u8], n: u64) -> usize
    requires { MOST_DIGITS ≤ length buffer.old }
    ensures within { result ≤ length buffer.new }
    ensures text { take result buffer.new ≡ decimal n }
    ensures short { length (decimal n) ≤ MOST_DIGITS }
{
    put_digits(buffer, n)
}

/// Writes a whole number at the front of `buffer`, and says how many bytes it has.
pub fn put_number(buffer: &mut [u8], z: i64) -> usize
    requires { MOST_DIGITS ≤ length buffer.old }
    ensures within { result ≤ length buffer.new }
    ensures text { take result buffer.new ≡ signed_decimal z }
{
    if z < 0 {
        let count = put_digits(&mut buffer[1..], z.unsigned_abs());
        buffer[0] = b'-';
        return count + 1;
    }
    put_digits(buffer, z.unsigned_abs())
}

// The number that a text is parsed as; other texts than the printed one may give it too.
fn parsed(text: &[u8]) -> Option<i64>
    ensures { (z : ℤ) → mag z < 2 ^ 63 → text.now ≡ signed_decimal z → result ≡ Some z }
{
    match str::from_utf8(text) {
        Ok(text) => text.parse::<i64>().ok(),
        Err(_) => None,
    }
}

/// The whole number that is printed so.
pub fn number_in(text: &[u8]) -> Option<i64>
    ensures some { IfSome result (λ z. text.now ≡ signed_decimal z) }
    ensures small { IfSome result (λ z. mag z < 2 ^ 63) }
    ensures none { IfNone result ((z : ℤ) → mag z < 2 ^ 63 → text.now ≢ signed_decimal z) }
{
    let z = parsed(text)?;
    let mut buffer = [0; MOST_DIGITS];
    let count = put_number(&mut buffer, z);
    if &buffer[..count] == text {
        Some(z)
    } else {
        None
    }
}

//! Numbers in answers.
ghost use Rattle.std.specs.Prelude.{◌≡◌, ◌<◌, ◌^◌, IfSome};
ghost use Rattle.span_sender.specs.Reply.{number_in};
ghost use Rattle.span_sender.specs.private.Number.{followed_by};

/// The number that digits write, if there are nothing but digits and it fits 64 bits.
pub(crate) fn number_in(digits: &[u8]) -> Option<u64>
    ensures { result ≡ number_in digits.now }
{
    if digits.is_empty() {
        return None;
    }
    let mut number = 0u64;
    for digit in digits {
        number = followed_by(number, *digit)?;
    }
    Some(number)
}

/// The number that a digit more makes of this one.
fn followed_by(number: u64, digit: u8) -> Option<u64>
    ensures value { result ≡ followed_by number digit }
    ensures fits { IfSome result (λ n. n < 2 ^ 64) }
{
    if digit.is_ascii_digit() {
        number.checked_mul(10)?.checked_add(u64::from(digit - b'0'))
    } else {
        None
    }
}

ghost use Rattle.std.specs.Prelude.{◌≡◌};
ghost use Rattle.text.specs.Numbers.{digit, with_digit, digits_after, read_number, NumbersReadBack};

/// The most that a number may be before its last digit, so that none has more than seven digits.
const MOST_BEFORE_LAST: u32 = 1_000_000;

fn digit_of(b: u8) -> Option<u32>
    ensures { result ≡ digit b }
{
    match b {
        b'0'..=b'9' => Some(u32::from(b - b'0')),
        _ => None,
    }
}

fn with_digit(n: u32, b: u8) -> Option<u32>
    ensures { result ≡ with_digit n (digit b) }
{
    let digit = digit_of(b)?;
    (n < MOST_BEFORE_LAST).then(|| n * 10 + digit)
}

fn read_digits(text: &[u8]) -> Option<u32>
    ensures { result ≡ digits_after 0 text.now }
{
    text.iter().try_fold(0, |n, b| with_digit(n, *b))
}

// The number that a text spells in one to seven digits with no leading zero.
#[tactic(auto, using(crate::proofs::Numbers::numbers_read_back))]
pub(crate) fn read_number(text: &[u8]) -> Option<u32>
    ensures spelled { result ≡ read_number text.now }
    ensures back { NumbersReadBack }
{
    match text {
        [] => None,
        [b'0'] => Some(0),
        [b'0', ..] => None,
        _ => read_digits(text),
    }
}

//! Keys of positions: numbers mixed so that positions which differ little get keys that differ much.
ghost use Rattle.std.specs.Prelude.{◌≡◌};
ghost use Rattle.puzzle.specs.Keys.{sum_with, key_of};

/// 2 ^ 64 over the golden ratio, an odd number whose multiples spread well.
const SPREAD: u64 = 0x9E37_79B9_7F4A_7C15;

/// The sum after one number more, of those that make up a position.
pub fn mix(sum: u64, number: u64) -> u64
    ensures { result ≡ sum_with sum number }
{
    sum.wrapping_add(number).wrapping_mul(SPREAD)
}

/// The key that a sum makes: its high half, where each number that was mixed in has moved every bit.
pub fn key_of(sum: u64) -> u32
    ensures { result ≡ key_of sum }
{
    (sum >> u32::BITS) as u32
}

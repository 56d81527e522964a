//! Decimal numbers of a script.
ghost use Rattle.std.specs.Prelude.{◌≡◌};
ghost use Rattle.h5_model.specs.Scripts.Lines.{number_upto as number_read, value_from as value_read, u32_from as u32_read, u64_from as u64_read};

/// The number that a word stands for: one decimal digit or more, leading zeros allowed, and at most
/// so much.
fn number_upto(most: u128, word: &[u8]) -> Option<u128>
    ensures { result ≡ number_read most word.now }
{
    if word.is_empty() {
        return None;
    }
    let mut number: u128 = 0;
    for digit in word {
        if !digit.is_ascii_digit() {
            return None;
        }
        number = number
            .checked_mul(10)?
            .checked_add(u128::from(*digit - b'0'))?;
        if number > most {
            return None;
        }
    }
    Some(number)
}

/// The number below 2^64 that a word stands for.
pub(crate) fn u64_from(word: &[u8]) -> Option<u64>
    ensures { result ≡ u64_read word.now }
{
    number_upto(u128::from(u64::MAX), word).map(|number| number as u64)
}

/// The number below 2^32 that a word stands for.
pub(crate) fn u32_from(word: &[u8]) -> Option<u32>
    ensures { result ≡ u32_read word.now }
{
    number_upto(u128::from(u32::MAX), word).map(|number| number as u32)
}

/// The value of `i128` that a word stands for; a `-` may stand before the digits.
pub(crate) fn value_from(word: &[u8]) -> Option<i128>
    ensures { result ≡ value_read word.now }
{
    let Some((b'-', digits)) = word.split_first() else {
        let number = number_upto(i128::MAX as u128, word)?;
        return Some(number as i128);
    };
    let number = number_upto(1 << 127, digits)?;
    if number == 1 << 127 {
        Some(i128::MIN)
    } else {
        Some(-(number as i128))
    }
}

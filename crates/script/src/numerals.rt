// Numbers as the script writes them.
ghost use Rattle.std.specs.Prelude.{◌≡◌};
ghost use Rattle.script.specs.Numerals.{numeral, plain, one_more, within, read};

/// Whether `text` is one or more decimal digits and nothing else.
pub(crate) fn is_number(text: &[u8]) -> bool
    ensures { result ≡ numeral text.now }
{
    !text.is_empty() && text.iter().all(|b| b.is_ascii_digit())
}

/// Whether no zero stands in front of another digit.
fn is_plain(digits: &[u8]) -> bool
    ensures { result ≡ plain digits.now }
{
    !matches!(digits, [b'0', _, ..])
}

/// The number that has one digit more than `front`; none where it is above 4,294,967,295.
fn with_digit(front: u32, digit: u8) -> Option<u32>
    ensures { result ≡ within (one_more front digit) }
{
    front
        .checked_mul(10)?
        .checked_add(u32::from(digit.saturating_sub(b'0')))
}

/// The number that the digits write; none where a zero stands in front of another digit, or the number is above 4,294,967,295.
pub(crate) fn value_of(digits: &[u8]) -> Option<u32>
    ensures { result ≡ read digits.now }
{
    if !is_plain(digits) {
        return None;
    }
    digits.iter().copied().try_fold(0, with_digit)
}

// Numerals: 1 to 20 decimal digits without a leading zero, save 0 itself.
ghost use Rattle.text.specs.Numbers.{DigitRead, NumberRead};

// The value of a decimal digit.
fn digit(byte: u8) -> Option<u8>
    ensures { DigitRead byte result }
{
    match byte {
        b'0'..=b'9' => Some(byte - b'0'),
        _ => None,
    }
}

/// The number that a field writes, or none where it writes no number.
pub fn number(field: &[u8]) -> Option<u128>
    ensures { NumberRead field.now result }
{
    if field.len() > 20 {
        return None;
    }
    if let [] | [b'0', _, ..] = field {
        return None;
    }
    let mut n = 0u128;
    for b in field {
        let d = digit(*b)?;
        n = n * 10 + d as u128;
    }
    Some(n)
}

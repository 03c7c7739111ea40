// Numbers in the text form.
ghost use Rattle.std.specs.Prelude.{◌≡◌};
ghost use Rattle.composing.specs.Numerals.{decimal_in, hex_byte};

// A decimal number. The test is for the sign that `parse` would take.
pub(crate) fn decimal(word: &[u8]) -> Option<u32>
    ensures { result ≡ decimal_in 4294967295 word.now }
{
    if !word.iter().all(|b| b.is_ascii_digit()) {
        return None;
    }
    str::from_utf8(word).ok()?.parse().ok()
}

// A decimal number of at most 255.
pub(crate) fn decimal_byte(word: &[u8]) -> Option<u8>
    ensures { result ≡ decimal_in 255 word.now }
{
    u8::try_from(decimal(word)?).ok()
}

// A byte in two hexadecimal digits.
pub(crate) fn byte_in_hex(word: &[u8]) -> Option<u8>
    ensures { result ≡ hex_byte word.now }
{
    let [high, low] = *word else {
        return None;
    };
    let high = char::from(high).to_digit(16)?;
    let low = char::from(low).to_digit(16)?;
    Some((16 * high + low) as u8)
}

//! Numbers as the program reads them: 1 to 20 decimal digits, at most 18446744073709551615.
ghost use Rattle.std.specs.Prelude.{◌≡◌};
ghost use Rattle.lru_lines.specs.Lines.{number_of, most_of};

/// The number that a word is, if it is one.
pub fn number(word: &[u8]) -> Option<u64>
    ensures { result ≡ number_of word.now }
{
    if word.is_empty() || word.len() > 20 {
        return None;
    }
    let mut value = 0u64;
    for byte in word {
        if !byte.is_ascii_digit() {
            return None;
        }
        let digit = (*byte - b'0') as u64;
        if value > (u64::MAX - digit) / 10 {
            return None;
        }
        value = value * 10 + digit;
    }
    Some(value)
}

/// The number that a word is, `None` for the word `-`; no answer where it is neither.
pub fn number_or_dash(word: &[u8]) -> Option<Option<u64>>
    ensures { result ≡ most_of word.now }
{
    if word == b"-".as_slice() {
        return Some(None);
    }
    let most = number(word)?;
    Some(Some(most))
}

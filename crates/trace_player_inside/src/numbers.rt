//! Words that are to be numbers, and what is wrong with those that are none.
ghost use Rattle.std.specs.Prelude.{◌≡◌};
ghost use Rattle.std.specs.List.{list_all};
ghost use Rattle.lru_lines.specs.Lines.{is_digit};
ghost use Rattle.trace_player_inside.specs.Numbers.{number_fault, number_read};

use lru_lines::numbers::number;

/// Why a word is no number.
#[derive(Clone, Copy, Debug, PartialEq, Eq)]
pub enum NumberFault {
    /// There is no word.
    Missing,
    /// It has a byte that is no decimal digit.
    NotDigits,
    /// It has more than 20 digits, or is 2^64 or more.
    TooLarge,
}

fn are_digits(word: &[u8]) -> bool
    ensures { result ≡ list_all is_digit word.now }
{
    word.iter().all(|byte| byte.is_ascii_digit())
}

// What is wrong with a word that is no number.
fn fault_of(word: &[u8]) -> NumberFault
    ensures { result ≡ number_fault word.now }
{
    if word.is_empty() {
        NumberFault::Missing
    } else if are_digits(word) {
        NumberFault::TooLarge
    } else {
        NumberFault::NotDigits
    }
}

/// The number that a word is: 1 to 20 decimal digits that are below 2^64.
pub fn number_from(word: &[u8]) -> Result<u64, NumberFault>
    ensures { result ≡ number_read word.now }
{
    match number(word) {
        Some(number) => Ok(number),
        None => Err(fault_of(word)),
    }
}

// Numbers written by hand, from bytes.
#![tactic(auto)]

ghost use Rattle.std.specs.Prelude.{◌≡◌, ◌<◌, ◌≤◌, IfSome, length, position};
ghost use Rattle.std.specs.Char.{is_ascii_digit};
ghost use Rattle.std.specs.List.{list_all};
ghost use Rattle.numerals.specs.Numerals.{is_numeral, is_dot, number_of, signed_of, stamp_code_of};

use std::str;

// How many counters a time has in the code of a stamp.
const COUNTERS: u64 = 65_536;

// The highest time of a stamp: 48 bits.
const MOST_TIME: u64 = 281_474_976_710_655;

// Whether the word has no byte but digits.
fn is_digits(word: &[u8]) -> bool
    ensures { result ≡ list_all is_ascii_digit word.now }
{
    word.iter().all(|byte| byte.is_ascii_digit())
}

// Whether the word is a number: one digit or more, and nothing else.
pub fn is_number(word: &[u8]) -> bool
    ensures { result ≡ is_numeral word.now }
{
    !word.is_empty() && is_digits(word)
}

// The place of the first dot.
fn dot_place(word: &[u8]) -> Option<usize>
    ensures place { result ≡ position is_dot word.now }
    ensures within { IfSome result (λ place. place < length word.now) }
{
    word.iter().position(|byte| *byte == b'.')
}

// The number that the word is, if it is one of 64 bits.
fn any_number(word: &[u8]) -> Option<u64>
    ensures { result ≡ number_of 18446744073709551615 word.now }
{
    if !is_number(word) {
        return None;
    }
    str::from_utf8(word).ok()?.parse::<u64>().ok()
}

// The number that the word is, if it is one of at most this: digits alone, without a sign.
#[tactic(auto, unfolding(crate::specs::Numerals::number_of))]
pub fn number(word: &[u8], most: u64) -> Option<u64>
    ensures number { result ≡ number_of most word.now }
    ensures most { IfSome result (λ number. number ≤ most) }
{
    any_number(word).filter(|number| *number <= most)
}

// The same of a number that may have a minus sign before it.
#[tactic(auto, unfolding(crate::specs::Numerals::signed_of))]
pub fn signed(word: &[u8]) -> Option<i32>
    ensures { result ≡ signed_of word.now }
{
    match word {
        [b'-', digits @ ..] => {
            let size = number(digits, 2_147_483_648)?;
            Some((-(size as i64)) as i32)
        }
        _ => {
            let size = number(word, 2_147_483_647)?;
            Some(size as i32)
        }
    }
}

// The code of the stamp that is written TIME.COUNTER.
#[tactic(auto, unfolding(crate::specs::Numerals::stamp_code_of))]
pub fn stamp_code(word: &[u8]) -> Option<u64>
    ensures { result ≡ stamp_code_of word.now }
{
    let dot = dot_place(word)?;
    let time = number(&word[..dot], MOST_TIME)?;
    let counter = number(&word[dot + 1..], COUNTERS - 1)?;
    Some(time * COUNTERS + counter)
}

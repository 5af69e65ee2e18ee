ghost use Rattle.std.specs.Prelude.{◌≡◌, ◌+◌, ◌-◌, ◌*◌, ◌^◌, ◌<◌, ◌≤◌, min, length, map, pos, true};
ghost use Rattle.std.specs.Prelude.{unsigned_abs, nat_lt, int_lt};
ghost use Rattle.std.specs.Char.{is_ascii_digit};
ghost use Rattle.std.specs.List.{list_all};
ghost use Rattle.std.specs.Str.Parse.{digits_value};
ghost use Rattle.carton_lines.specs.Lines.{Gives};
ghost use Rattle.carton_lines.specs.Numbers.{is_positive as is_positive_in, is_natural, number, number_in};
ghost use Rattle.carton_lines.specs.Numbers.{numbers_in, from_to as from_to_in, at_most as at_most_in};

use crate::fault::Fault;
use std::alloc::Global;
use std::marker::Model;

/// A whole number as a text writes it, of any number of digits.
#[derive(Drop)]
pub struct Numeral<'a> {
    negative: bool,
    digits: &'a [u8],
}

impl<'a> Model for Numeral<'a> {
    ghost use Rattle.std.specs.Prelude.{◌≡◌, ℤ, pos, neg_ℤ, if◌then◌else◌, true};
    ghost use Rattle.std.specs.Str.Parse.{digits_value};
    ghost use Rattle.carton_lines.specs.Numbers.{is_written};

    ghost Value = { ℤ };

    ghost view = { λ n. if n.negative then neg_ℤ (pos (digits_value 10 n.digits.now)) else pos
        (digits_value 10 n.digits.now) };

    ghost invariant = { λ n. is_written n.negative n.digits.now ≡ true };
}

fn are_digits(word: &[u8]) -> bool
    ensures { result ≡ list_all is_ascii_digit word.now }
{
    word.iter().all(|byte| byte.is_ascii_digit())
}

// Whether these are decimal digits, the first of which is not 0.
fn is_positive(word: &[u8]) -> bool
    ensures { result ≡ is_positive_in word.now }
{
    match word {
        [] => false,
        [first, ..] => *first != b'0' && are_digits(word),
    }
}

/// The number that a word writes: `0`, or digits of which the first is not 0, or such digits after
/// a minus.
#[tactic(auto, unfolding(crate::specs::Numbers::number))]
pub fn number_of(word: &[u8]) -> Option<Numeral<'_>>
    ensures { result ≡ number word.now }
{
    if word == b"0".as_slice() || is_positive(word) {
        return Some(Numeral {
            negative: false,
            digits: word,
        });
    }
    match word {
        [b'-', digits @ ..] if is_positive(digits) => Some(Numeral {
            negative: true,
            digits,
        }),
        _ => None,
    }
}

// The number with one more digit, or 2^64 - 1 where it is greater.
fn with_digit(size: u64, digit: u8) -> u64
    requires { 48 ≤ digit }
    ensures { result ≡ min (size * 10 + (digit - 48)) (2 ^ 64 - 1) }
{
    size.saturating_mul(10)
        .saturating_add(u64::from(digit - b'0'))
}

// The number that digits write, or 2^64 - 1 where it is greater.
fn size_of(digits: &[u8]) -> u64
    requires { list_all is_ascii_digit digits.now ≡ true }
    ensures { result ≡ min (digits_value 10 digits.now) (2 ^ 64 - 1) }
{
    let mut size: u64 = 0;
    for digit in digits {
        size = with_digit(size, *digit);
    }
    size
}

// Whether the first digits write a lesser number than the second.
fn is_lower(first: &[u8], second: &[u8]) -> bool
    requires first { is_natural first.now ≡ true }
    requires second { is_natural second.now ≡ true }
    ensures { result ≡ nat_lt (digits_value 10 first.now) (digits_value 10 second.now) }
{
    if first.len() != second.len() {
        return first.len() < second.len();
    }
    first < second
}

impl<'a> Numeral<'a> {
    // The number without its sign, or 2^64 - 1 where it is greater.
    fn size(&self) -> u64
        ensures { result ≡ min (unsigned_abs self.now) (2 ^ 64 - 1) }
    {
        size_of(self.digits)
    }

    /// Whether the number is less than the other.
    pub fn is_less(&self, other: &Numeral<'_>) -> bool
        ensures { result ≡ int_lt self.now other.now }
    {
        match (self.negative, other.negative) {
            (false, false) => is_lower(self.digits, other.digits),
            (false, true) => false,
            (true, false) => true,
            (true, true) => is_lower(other.digits, self.digits),
        }
    }

    /// Whether the number is greater than this one.
    pub fn is_above(&self, bound: u32) -> bool
        ensures { result ≡ int_lt (pos bound) self.now }
    {
        !self.negative && self.size() > u64::from(bound)
    }

    /// The number where it lies from `low` to `high`, and else a fault of range.
    pub fn from_to(&self, low: u64, high: u64) -> Result<u64, Fault>
        requires { high < 2 ^ 63 }
        ensures { result ≡ from_to_in low high self.now }
    {
        let size = self.size();
        if (self.negative && size > 0) || size < low || high < size {
            return Err(Fault::Range);
        }
        Ok(size)
    }

    /// The number where it lies from -`most` to `most`, and else a fault of range.
    pub fn at_most(&self, most: u32) -> Result<i64, Fault>
        ensures { result ≡ at_most_in most self.now }
    {
        let size = self.size();
        if size > u64::from(most) {
            return Err(Fault::Range);
        }
        let size = size as i64;
        Ok(if self.negative { -size } else { size })
    }
}

/// The number that a word writes, or else a line without a form.
pub fn number_at(word: &[u8]) -> Result<Numeral<'_>, Fault>
    ensures { result ≡ number_in word.now }
{
    number_of(word).ok_or(Fault::BadLine)
}

/// The numbers of words, each of which writes one.
pub fn numbers<'w>(alloc: Global, words: &[&'w [u8]]) -> Result<Vec<Numeral<'w>>, Fault>
    ensures { Gives (λ v. v.items) result (numbers_in (map (λ w. w.now) words.now)) }
{
    let mut found = Vec::new(alloc);
    for word in words {
        found.push(number_at(word)?)?;
    }
    Ok(found)
}

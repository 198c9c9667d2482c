//! Words that are numbers, and their ranges.
ghost use Rattle.std.specs.Prelude.{◌≡◌, ◌≤◌, ◌<◌, ◌+◌, ◌∷◌, length, get_or, take, drop, min, MatchOption, IfSome, IfOk, IfErr, is_ok, false, true};
ghost use Rattle.voice_script.specs.Script.{is_digits, digits_value, is_number, value_of, words_of};
ghost use Rattle.voice_script.specs.Readings.{Limits, BeginsWithDigits, HasShortNumber, HasNoShortNumber};

use crate::limits::{FEED_SAMPLES, GREATEST_MAGNITUDE, SHORT_DIGITS};
use crate::samples::FeedSamples;
use crate::words::is_blank;
use ialg::Refusal;

/// The value of one or more decimal digits, as far as the greatest magnitude. None for everything else.
fn magnitude(digits: &[u8]) -> Option<u32>
    ensures { MatchOption result (is_digits digits.now ≡ false)
        (λ value. (is_digits digits.now ≡ true) × (value ≡ min (digits_value digits.now) GREATEST_MAGNITUDE)) }
{
    if digits.is_empty() {
        return None;
    }
    let mut value = 0;
    for digit in digits {
        if !digit.is_ascii_digit() {
            return None;
        }
        value = (10 * value + u32::from(digit.saturating_sub(b'0'))).min(GREATEST_MAGNITUDE);
    }
    Some(value)
}

/// The value of an optional minus and one or more digits, as far as [`GREATEST_MAGNITUDE`]. None for everything else.
pub fn value_of(word: &[u8]) -> Option<i32>
    ensures { MatchOption result (is_number word.now ≡ false)
        (λ value. (is_number word.now ≡ true) × Limits (value_of word.now) value) }
{
    match word {
        [b'-', digits @ ..] => Some(-(magnitude(digits)? as i32)),
        _ => Some(magnitude(word)? as i32),
    }
}

/// How many digits a line begins with, and their value, where a space stands behind them. None for every other line, and for more than
/// [`SHORT_DIGITS`].
#[inline(always)]
fn short_digits(line: &[u8]) -> Option<(usize, u32)>
    requires { SHORT_DIGITS < length line.now }
    ensures digits { IfSome result (λ digits. BeginsWithDigits line.now digits.0 digits.1) }
    ensures few { IfSome result (λ digits. digits.0 ≤ SHORT_DIGITS) }
    ensures short { MatchOption result (HasNoShortNumber line.now) (λ part. HasShortNumber line.now part.0) }
{
    let mut value = 0;
    for count in 0..SHORT_DIGITS + 1 {
        let octet = line[count];
        if !octet.is_ascii_digit() {
            return if count > 0 && octet == b' ' {
                Some((count, value))
            } else {
                None
            };
        }
        value = 10 * value + u32::from(octet.saturating_sub(b'0'));
    }
    None
}

/// As [`short_digits`] does, for a line of no more octets than that, also where it ends behind the digits, and where the blank is a tab.
#[inline(always)]
fn last_digits(line: &[u8]) -> Option<(usize, u32)>
    requires { length line.now ≤ SHORT_DIGITS }
    ensures digits { IfSome result (λ digits. BeginsWithDigits line.now digits.0 digits.1) }
    ensures short { MatchOption result (HasNoShortNumber line.now) (λ part. HasShortNumber line.now part.0) }
{
    let mut value = 0;
    for (count, octet) in line.iter().enumerate() {
        if !octet.is_ascii_digit() {
            return if count > 0 && is_blank(*octet) {
                Some((count, value))
            } else {
                None
            };
        }
        value = 10 * value + u32::from(octet.saturating_sub(b'0'));
    }
    if line.is_empty() {
        None
    } else {
        Some((line.len(), value))
    }
}

/// A word that is a number, with its value as far as the greatest magnitude.
#[derive(Clone, Copy)]
pub(crate) struct Number<'a> {
    word: &'a [u8],
    value: i32,
    ghost numeric: { is_number word.now ≡ true },
    ghost limits: { Limits (value_of word.now) value },
}

impl<'a> Number<'a> {
    ghost use Rattle.voice_script.specs.Script.{fits_byte, natural};
    ghost use Rattle.voice_script.specs.Readings.{fits_samples, fits_word};

    /// None where the word is no number.
    pub(crate) fn of(word: &'a [u8]) -> Option<Number<'a>>
        ensures { MatchOption result (is_number word.now ≡ false) (λ number. number.word.now ≡ word.now) }
    {
        match value_of(word) {
            Some(value) => Some(Number { word, value }),
            None => None,
        }
    }

    /// The first so many octets of a line as a number of this value, and what stands behind the one after them.
    #[inline(always)]
    fn part(line: &'a [u8], end: usize, value: i32) -> (Number<'a>, &'a [u8])
        requires within { end ≤ length line.now }
        requires numeric { is_number (take end line.now) ≡ true }
        requires limits { Limits (value_of (take end line.now)) value }
        ensures word { result.0.word.now ≡ take end line.now }
        ensures after { result.1.now ≡ drop (end + 1) line.now }
    {
        let number = Number {
            word: &line[..end],
            value,
        };
        let after = if end < line.len() {
            &line[end + 1..]
        } else {
            &line[end..]
        };
        (number, after)
    }

    /// As [`part`](Self::part) does, where an octet stands behind those first ones.
    #[inline(always)]
    fn part_before(line: &'a [u8], end: usize, value: i32) -> (Number<'a>, &'a [u8])
        requires within { end < length line.now }
        requires numeric { is_number (take end line.now) ≡ true }
        requires limits { Limits (value_of (take end line.now)) value }
        ensures word { result.0.word.now ≡ take end line.now }
        ensures after { result.1.now ≡ drop (end + 1) line.now }
    {
        let number = Number {
            word: &line[..end],
            value,
        };
        (number, &line[end + 1..])
    }

    /// As [`leading`](Self::leading) does, for a number without a minus and of no more than [`SHORT_DIGITS`] digits, behind which a space
    /// stands where the line has more octets than that. None for every other line.
    #[inline(always)]
    pub(crate) fn leading_natural(line: &'a [u8]) -> Option<(Number<'a>, &'a [u8])>
        ensures word { IfSome result (λ parts. words_of line.now ≡ parts.0.word.now ∷ words_of parts.1.now) }
        ensures shorter { IfSome result (λ parts. length parts.1.now < length line.now) }
        ensures short { MatchOption result (HasNoShortNumber line.now) (λ parts. HasShortNumber line.now (length parts.0.word.now)) }
    {
        if line.len() > SHORT_DIGITS {
            let (end, magnitude) = short_digits(line)?;
            return Some(Number::part_before(line, end, magnitude as i32));
        }
        let (count, magnitude) = last_digits(line)?;
        Some(Number::part(line, count, magnitude as i32))
    }

    /// As [`leading`](Self::leading) does, for a line that begins with a minus.
    #[inline(always)]
    fn leading_negative(line: &'a [u8]) -> Option<(Number<'a>, &'a [u8])>
        requires some { 1 ≤ length line.now }
        requires minus { get_or line.now 0 0 ≡ 45 }
        ensures word { IfSome result (λ parts. words_of line.now ≡ parts.0.word.now ∷ words_of parts.1.now) }
        ensures shorter { IfSome result (λ parts. length parts.1.now < length line.now) }
    {
        let digits = &line[1..];
        if digits.len() > SHORT_DIGITS {
            let (end, magnitude) = short_digits(digits)?;
            return Some(Number::part_before(line, end + 1, -(magnitude as i32)));
        }
        let (count, magnitude) = last_digits(digits)?;
        Some(Number::part(line, count + 1, -(magnitude as i32)))
    }

    /// The number that a line begins with, where it is a word, and what stands behind the blank that follows it. None for every other line,
    /// and for a number beyond the greatest magnitude.
    #[inline(always)]
    pub(crate) fn leading(line: &'a [u8]) -> Option<(Number<'a>, &'a [u8])>
        ensures word { IfSome result (λ parts. words_of line.now ≡ parts.0.word.now ∷ words_of parts.1.now) }
        ensures shorter { IfSome result (λ parts. length parts.1.now < length line.now) }
    {
        match line {
            [] => None,
            [b'-', ..] => Number::leading_negative(line),
            _ => Number::leading_natural(line),
        }
    }

    /// The number of an instance, a group or a channel: `range` beyond 0 to 255.
    pub(crate) fn byte(self) -> Result<u8, Refusal>
        ensures fits { is_ok result ≡ fits_byte self.entry.word.now }
        ensures value { IfOk result (λ n. n ≡ natural self.entry.word.now) }
        ensures range { IfErr result (λ refusal. refusal ≡ Refusal.Range) }
    {
        u8::try_from(self.value).map_err(|_| Refusal::Range)
    }

    /// The number of a feed's samples: `range` beyond 1 to [`FEED_SAMPLES`].
    pub(crate) fn samples(self) -> Result<FeedSamples, Refusal>
        ensures fits { is_ok result ≡ fits_samples self.entry.word.now }
        ensures value { IfOk result (λ n. n.number ≡ natural self.entry.word.now) }
        ensures range { IfErr result (λ refusal. refusal ≡ Refusal.Range) }
    {
        let value = self.value;
        if 1 <= value && value <= i32::from(FEED_SAMPLES) {
            Ok(FeedSamples::new(value as u16))
        } else {
            Err(Refusal::Range)
        }
    }

    /// A word of 16 bits: `range` beyond -32,768 to 32,767.
    pub(crate) fn sample(self) -> Result<i16, Refusal>
        ensures fits { is_ok result ≡ fits_word self.entry.word.now }
        ensures value { IfOk result (λ n. n ≡ value_of self.entry.word.now) }
        ensures range { IfErr result (λ refusal. refusal ≡ Refusal.Range) }
    {
        i16::try_from(self.value).map_err(|_| Refusal::Range)
    }
}

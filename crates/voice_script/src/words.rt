//! The words of a line.
ghost use Rattle.std.specs.Prelude.{◌≡◌, ◌<◌, ◌∷◌, true, false, length, All, MatchOption, IsSome, IfSome, IfNone};
ghost use Rattle.std.specs.Iterator.{YieldsFirstRef, item_count};
ghost use Rattle.voice_script.specs.Script.{without_return, is_blank};
ghost use Rattle.voice_script.specs.Readings.{IsNoBlank, PartsAtBlank, feed_word, create_word, delete_word, to_come};

use crate::numbers::Number;

/// The line less one carriage return at its end.
fn without_return(line: &[u8]) -> &[u8]
    ensures { result.now ≡ without_return line.now }
{
    let Some((last, text)) = line.split_last() else {
        return line;
    };
    if *last == b'\r' { text } else { line }
}

/// Whether the byte parts words: a space or a tab.
pub(crate) fn is_blank(octet: u8) -> bool
    ensures { result ≡ is_blank octet }
{
    octet == b' ' || octet == b'\t'
}

/// What stands before the first blank, and behind it.
fn split_at_blank(line: &[u8]) -> Option<(&[u8], &[u8])>
    ensures { MatchOption result (All IsNoBlank line.now) (λ parts. PartsAtBlank line.now parts.0.now parts.1.now) }
{
    for (end, octet) in line.iter().enumerate() {
        // most octets are beyond every blank
        if *octet <= b' ' && is_blank(*octet) {
            return Some((&line[..end], &line[end + 1..]));
        }
    }
    None
}

/// The words of a line that are still to come: what stands between its blanks, which are spaces and tabs.
#[derive(Drop)]
pub struct Words<'a> {
    line: &'a [u8],
}

impl<'a> Words<'a> {
    /// The words of this line, of which one carriage return at its end is no part.
    pub fn of(line: &'a [u8]) -> Words<'a>
        ensures { result.line.now ≡ without_return line.now }
    {
        Words {
            line: without_return(line),
        }
    }

    /// Reads the word `feed`, where the rest of the line begins with it and a space stands behind it. Otherwise nothing is read, and it
    /// answers false.
    pub(crate) fn skip_feed(&mut self) -> bool
        ensures feed { result ≡ true → to_come self.old ≡ feed_word ∷ to_come self.new }
        ensures other { result ≡ false → self.new ≡ self.old }
    {
        let [b'f', b'e', b'e', b'd', b' ', after @ ..] = self.line else {
            return false;
        };
        self.line = after;
        true
    }

    /// Reads the word `create`, as [`skip_feed`](Self::skip_feed) does `feed`.
    pub(crate) fn skip_create(&mut self) -> bool
        ensures create { result ≡ true → to_come self.old ≡ create_word ∷ to_come self.new }
        ensures other { result ≡ false → self.new ≡ self.old }
    {
        let [b'c', b'r', b'e', b'a', b't', b'e', b' ', after @ ..] = self.line else {
            return false;
        };
        self.line = after;
        true
    }

    /// Reads the word `delete`, as [`skip_feed`](Self::skip_feed) does `feed`.
    pub(crate) fn skip_delete(&mut self) -> bool
        ensures delete { result ≡ true → to_come self.old ≡ delete_word ∷ to_come self.new }
        ensures other { result ≡ false → self.new ≡ self.old }
    {
        let [b'd', b'e', b'l', b'e', b't', b'e', b' ', after @ ..] = self.line else {
            return false;
        };
        self.line = after;
        true
    }

    /// As [`leading_number`](Self::leading_number) does, for a number without a minus.
    #[inline(always)]
    pub(crate) fn leading_natural(&mut self) -> Option<Number<'a>>
        ensures number { IfSome result (λ number. to_come self.old ≡ number.word.now ∷ to_come self.new) }
        ensures none { IfNone result (self.new ≡ self.old) }
    {
        let (number, after) = Number::leading_natural(self.line)?;
        self.line = after;
        Some(number)
    }

    /// The next word, where the rest of the line begins with it and it is a number that isn't beyond the greatest magnitude. Otherwise
    /// None, and nothing is read.
    #[inline(always)]
    pub(crate) fn leading_number(&mut self) -> Option<Number<'a>>
        ensures number { IfSome result (λ number. to_come self.old ≡ number.word.now ∷ to_come self.new) }
        ensures shorter { IsSome result → length self.new.line.now < length self.old.line.now }
        ensures none { IfNone result (self.new ≡ self.old) }
    {
        let (number, after) = Number::leading(self.line)?;
        self.line = after;
        Some(number)
    }
}

impl<'a> Iterator for Words<'a> {
    type Item = &'a [u8];

    ghost next_gives = { YieldsFirstRef to_come };

    ghost remaining = { item_count to_come };

    fn next(&mut self) -> Option<&'a [u8]> {
        while let Some((word, after)) = split_at_blank(self.line) {
            self.line = after;
            if !word.is_empty() {
                return Some(word);
            }
        }
        let word = self.line;
        self.line = &[];
        let is_over = word.is_empty();
        if is_over { None } else { Some(word) }
    }
}

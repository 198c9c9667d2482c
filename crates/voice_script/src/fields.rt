//! The words of a row, by what each stands for.
ghost use Rattle.std.specs.Prelude.{◌≡◌, Ok, Err, true, false, ◌&&◌, ◌+◌, ◌++◌, ◌∷◌, [], ◌≤◌, nat_le, nat_lt, length, map, IfOk, IfErr, IsOk, is_ok, IsErr};
ghost use Rattle.std.specs.List.{list_all};
ghost use Rattle.voice_script.specs.Script.{is_number, value_of, natural, fits_byte, fit_words, only_number, only_space, space_named};
ghost use Rattle.voice_script.specs.Readings.{begins_with_number, fit_members, fits_word, kind_first, at_end, to_come, why_unfit};
ghost use Rattle.voice_script.specs.declared.limits.TheConstants.{MEMBERS};

use crate::members::MemberNumbers;
use crate::numbers::Number;
use crate::words::Words;
use arrayvec::ArrayVec;
use ialg::{Named, PARAMETER_WORDS, Params, Refusal};
use mem_rec::Space;

/// Keeps one parameter more: false where it is out of its range or there are too many, and nothing is kept.
fn keep(parameters: &mut Params, number: Number<'_>) -> bool
    ensures fits { result ≡ (fits_word number.entry.word.now && nat_lt (length parameters.old.items) PARAMETER_WORDS) }
    ensures kept { result ≡ true → parameters.new.items ≡ parameters.old.items ++ value_of number.entry.word.now ∷ [] }
    ensures same { result ≡ false → parameters.new ≡ parameters.old }
{
    match number.sample() {
        Ok(parameter) => parameters.try_push(parameter).is_ok(),
        Err(_) => false,
    }
}

/// Keeps one member more: false where its number is out of its range or there are too many, and nothing is kept.
fn keep_member(members: &mut MemberNumbers, number: Number<'_>) -> bool
    ensures fits { result ≡ (fits_byte number.entry.word.now && nat_lt (length members.old.items) MEMBERS) }
    ensures kept { result ≡ true → members.new.items ≡ members.old.items ++ natural number.entry.word.now ∷ [] }
    ensures same { result ≡ false → members.new ≡ members.old }
{
    match number.byte() {
        Ok(member) => members.try_push(member).is_ok(),
        Err(_) => false,
    }
}

/// The space of this name: `syntax` for every other word.
fn space_named(word: &[u8]) -> Result<Space, Refusal>
    ensures { result ≡ space_named word.now }
{
    if word == b"daram".as_slice() {
        Ok(Space::Daram)
    } else if word == b"saram".as_slice() {
        Ok(Space::Saram)
    } else if word == b"external".as_slice() {
        Ok(Space::External)
    } else {
        Err(Refusal::Syntax)
    }
}

impl<'a> Words<'a> {
    /// The next word, a number: `syntax` where it is none, or there is none.
    #[inline(always)]
    pub(crate) fn number(&mut self) -> Result<Number<'a>, Refusal>
        ensures number { IfOk result (λ number. to_come self.old ≡ number.word.now ∷ to_come self.new) }
        ensures none { IsErr result → begins_with_number (to_come self.old) ≡ false }
        ensures refusal { IfErr result (λ refusal. refusal ≡ Refusal.Syntax) }
    {
        // numbers of a row hardly ever have a minus
        if let Some(number) = self.leading_natural() {
            return Ok(number);
        }
        self.other_number()
    }

    /// As [`number`](Self::number) does, also for words with more blanks before them, and for numbers with a minus or beyond the greatest
    /// magnitude.
    #[inline(never)]
    fn other_number(&mut self) -> Result<Number<'a>, Refusal>
        ensures number { IfOk result (λ number. to_come self.old ≡ number.word.now ∷ to_come self.new) }
        ensures none { IsErr result → begins_with_number (to_come self.old) ≡ false }
        ensures refusal { IfErr result (λ refusal. refusal ≡ Refusal.Syntax) }
    {
        let Some(word) = self.next() else {
            return Err(Refusal::Syntax);
        };
        Number::of(word).ok_or(Refusal::Syntax)
    }

    /// The next word, a kind's name: `syntax` where it is none, or there is none.
    #[inline(always)]
    pub(crate) fn kind<M: Named + Copy>(&mut self) -> Result<M, Refusal>
        ensures kind { IfOk result (λ kind. kind_first M.named (to_come self.old) ≡ Ok (kind, to_come self.new)) }
        ensures refusal { IfErr result (λ refusal. kind_first M.named (to_come self.old) ≡ Err refusal) }
    {
        let Some(word) = self.next() else {
            return Err(Refusal::Syntax);
        };
        M::of_name(word).ok_or(Refusal::Syntax)
    }

    /// The words that are left as far as each is a number behind one blank, as parameters, in place of what `room` held: false where one is
    /// out of its range or there are too many. Those behind it are still to come.
    fn leading_parameters(&mut self, room: &mut Params) -> bool
        ensures few { length room.new.items ≤ PARAMETER_WORDS }
        ensures numbers { list_all is_number (to_come self.old) ≡ list_all is_number (to_come self.new) }
        ensures fits { fit_words (to_come self.old)
            ≡ (result && (nat_le (length room.new.items + length (to_come self.new)) PARAMETER_WORDS && list_all fits_word (to_come self.new))) }
        ensures values { result ≡ true → map value_of (to_come self.old) ≡ room.new.items ++ map value_of (to_come self.new) }
    {
        room.clear();
        while let Some(number) = self.leading_number() {
            if !keep(room, number) {
                return false;
            }
        }
        true
    }

    /// All words that are left, as parameters, in place of what `room` held: `syntax` where one is no number, and else `range` where
    /// one is out of its range or there are too many.
    pub(crate) fn parameters(self, room: &mut Params) -> Result<(), Refusal>
        ensures fits { is_ok result ≡ (list_all is_number (to_come self.entry) && fit_words (to_come self.entry)) }
        ensures value { IsOk result → room.new.items ≡ map value_of (to_come self.entry) }
        ensures refusal { IfErr result (λ refusal. refusal ≡ why_unfit (to_come self.entry)) }
    {
        let mut words = self;
        let mut fit = words.leading_parameters(room);
        for word in words {
            let Some(number) = Number::of(word) else {
                return Err(Refusal::Syntax);
            };
            fit = fit && keep(room, number);
        }
        if fit { Ok(()) } else { Err(Refusal::Range) }
    }

    /// All words that are left, as the numbers of members: `syntax` where one is no number, and else `range`
    /// where one is out of its range or there are too many.
    pub(crate) fn members(self) -> Result<MemberNumbers, Refusal>
        ensures fits { is_ok result ≡ (list_all is_number (to_come self.entry) && fit_members (to_come self.entry)) }
        ensures value { IfOk result (λ members. members.items ≡ map natural (to_come self.entry)) }
        ensures refusal { IfErr result (λ refusal. refusal ≡ why_unfit (to_come self.entry)) }
    {
        let mut members = ArrayVec::new();
        let mut fit = true;
        for word in self {
            let Some(number) = Number::of(word) else {
                return Err(Refusal::Syntax);
            };
            fit = fit && keep_member(&mut members, number);
        }
        if fit {
            Ok(members)
        } else {
            Err(Refusal::Range)
        }
    }

    /// The only word that is left, the number of an instance, a group or a channel.
    #[inline(always)]
    pub(crate) fn only_number(mut self) -> Result<u8, Refusal>
        ensures { result ≡ only_number (to_come self.entry) }
    {
        let number = self.number()?;
        self.end()?;
        number.byte()
    }

    /// The only word that is left, a space.
    pub(crate) fn only_space(mut self) -> Result<Space, Refusal>
        ensures { result ≡ only_space (to_come self.entry) }
    {
        let Some(word) = self.next() else {
            return Err(Refusal::Syntax);
        };
        let space = space_named(word)?;
        self.end()?;
        Ok(space)
    }

    /// `syntax` where a word is left.
    pub(crate) fn end(mut self) -> Result<(), Refusal>
        ensures { result ≡ at_end (to_come self.entry) }
    {
        match self.next() {
            None => Ok(()),
            Some(_) => Err(Refusal::Syntax),
        }
    }
}

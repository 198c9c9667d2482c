//! Coders: what an instance does, and the memory that it needs.
ghost use Rattle.std.specs.Prelude.{◌≡◌, ◌∷◌, [], Option, Some};
ghost use Rattle.ialg.specs.Records.{record_at};
ghost use Rattle.alg_g711.specs.declared.coder.Direction.TheVariants.{Decode};
ghost use Rattle.alg_g711.specs.Meaning.{coder_named, kind_word, records_of};
ghost use Rattle.alg_g711.specs.Parameters.{direction_named, law_named};

use crate::companding::Law;
use crate::{
    A_DECODER_KIND, A_ENCODER_KIND, CODES, MU_DECODER_KIND, MU_ENCODER_KIND, SAMPLES_ALIGNMENT,
};
use ialg::object_record;
use mem_rec::{Attr, MemRec, MemTab, Space};

/// Which way a coder goes.
#[derive(Clone, Copy, PartialEq, Eq, Debug)]
pub enum Direction {
    /// From samples to codes.
    Encode,
    /// From codes to samples.
    Decode,
}

/// What an instance does.
#[derive(Clone, Copy, PartialEq, Eq, Debug)]
pub struct Coder {
    pub law: Law,
    pub direction: Direction,
}

/// The law that this parameter names.
#[tactic(auto, using(std::proofs::lemmas::Int::ints))]
fn law_by(word: i16) -> Option<Law>
    ensures { result ≡ law_named word }
{
    match word {
        0 => Some(Law::A),
        1 => Some(Law::Mu),
        _ => None,
    }
}

/// The direction that this parameter names.
#[tactic(auto, using(std::proofs::lemmas::Int::ints))]
fn direction_by(word: i16) -> Option<Direction>
    ensures { result ≡ direction_named word }
{
    match word {
        0 => Some(Direction::Encode),
        1 => Some(Direction::Decode),
        _ => None,
    }
}

impl Coder {
    /// The coder that these parameters name: the law and the direction, and nothing else.
    pub(crate) fn by_parameters(p: &[i16]) -> Option<Coder>
        ensures { result ≡ coder_named p.now }
    {
        let [law, direction] = p else {
            return None;
        };
        Some(Coder {
            law: law_by(*law)?,
            direction: direction_by(*direction)?,
        })
    }

    /// The coder that this kind word names.
    #[tactic(auto, using(std::proofs::lemmas::Int::ints))]
    pub(crate) fn by_kind(kind: i16) -> Option<Coder>
        ensures { (coder : Coder) → kind ≡ kind_word coder.law coder.direction → result ≡ Some coder }
    {
        let (law, direction) = match kind {
            A_ENCODER_KIND => (Law::A, Direction::Encode),
            A_DECODER_KIND => (Law::A, Direction::Decode),
            MU_ENCODER_KIND => (Law::Mu, Direction::Encode),
            MU_DECODER_KIND => (Law::Mu, Direction::Decode),
            _ => return None,
        };
        Some(Coder { law, direction })
    }

    /// The kind word of its object.
    pub(crate) fn kind(self) -> i16
        ensures { result ≡ kind_word self.law self.direction }
    {
        match (self.law, self.direction) {
            (Law::A, Direction::Encode) => A_ENCODER_KIND,
            (Law::A, Direction::Decode) => A_DECODER_KIND,
            (Law::Mu, Direction::Encode) => MU_ENCODER_KIND,
            (Law::Mu, Direction::Decode) => MU_DECODER_KIND,
        }
    }

    /// Its parameters.
    pub(crate) fn parameters(self) -> [i16; 2]
        ensures { coder_named result ≡ Some self }
    {
        let law = match self.law {
            Law::A => 0,
            Law::Mu => 1,
        };
        let direction = match self.direction {
            Direction::Encode => 0,
            Direction::Decode => 1,
        };
        [law, direction]
    }

    /// The records that it needs, without bases.
    pub(crate) fn table(self) -> Option<MemTab>
        ensures { result ≡ Some (records_of self.direction) }
    {
        match self.direction {
            Direction::Encode => MemTab::make(&[object_record()]),
            Direction::Decode => MemTab::make(&[object_record(), samples_record()]),
        }
    }
}

/// The record of the samples of the codes, which a decoder has.
fn samples_record() -> MemRec
    ensures { result ≡ record_at (records_of Decode) 1 }
{
    MemRec {
        size: CODES as u32,
        align: SAMPLES_ALIGNMENT,
        space: Space::External,
        attr: Attr::WriteOnce,
        base: 0,
    }
}

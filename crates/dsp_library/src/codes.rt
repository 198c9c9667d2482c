//! How C names kinds, spaces and answers.
ghost use Rattle.std.specs.Prelude.{◌≡◌};
ghost use Rattle.dsp_library.specs.Codes.{kind_numbered, space_numbered, code_of, full_after};

use crate::DONE;
use alg_activity::Activity;
use alg_adpcm::Adpcm;
use alg_dtmf::Dtmf;
use alg_echo::Echo;
use alg_gain::Gain;
use alg_level::Level;
use alg_signal::Signal;
use gateway_kinds::GatewayKind;
use ialg::Refusal;
use kind_parts::Or;
use mem_rec::Space;
use voice_set::Voice;

/// The kind of a number.
pub(crate) fn kind_by(number: u32) -> Option<GatewayKind>
    ensures { result ≡ kind_numbered number }
{
    let kind = match number {
        0 => Or::First(Voice::Fir),
        1 => Or::First(Voice::Decim),
        2 => Or::First(Voice::Biquad),
        3 => Or::First(Voice::Tone),
        4 => Or::First(Voice::G711),
        5 => Or::Second(Or::First(Gain::new())),
        6 => Or::Second(Or::Second(Or::First(Level::new()))),
        7 => Or::Second(Or::Second(Or::Second(Or::First(Dtmf)))),
        8 => Or::Second(Or::Second(Or::Second(Or::Second(Or::First(Echo::new()))))),
        9 => Or::Second(Or::Second(Or::Second(Or::Second(Or::Second(Or::First(Adpcm::new())))))),
        10 => Or::Second(Or::Second(Or::Second(Or::Second(Or::Second(Or::Second(Or::First(
            Signal::new(),
        ))))))),
        11 => Or::Second(Or::Second(Or::Second(Or::Second(Or::Second(Or::Second(Or::Second(
            Activity::new(),
        ))))))),
        _ => return None,
    };
    Some(GatewayKind { kind })
}

/// The space of a number.
pub(crate) fn space_by(number: u32) -> Option<Space>
    ensures { result ≡ space_numbered number }
{
    match number {
        0 => Some(Space::Daram),
        1 => Some(Space::Saram),
        2 => Some(Space::External),
        _ => None,
    }
}

/// Where a space has no room, its number is written.
pub(crate) fn tell_space(answer: Result<(), Refusal>, full: &mut u32)
    ensures { full.new ≡ full_after answer full.old }
{
    if let Err(Refusal::Room(space)) = answer {
        *full = match space {
            Space::Daram => 0,
            Space::Saram => 1,
            Space::External => 2,
        };
    }
}

/// The code of an answer, whatever the host tells where it does what it is asked.
pub(crate) fn code<T>(answer: &Result<T, Refusal>) -> i32
    ensures { result ≡ code_of answer.now }
{
    match answer {
        Ok(_told) => DONE,
        Err(refusal) => i32::from(refusal.number()),
    }
}

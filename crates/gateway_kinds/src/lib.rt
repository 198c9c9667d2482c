// SPDX-License-Identifier: Apache-2.0
//! The kinds of a voice gateway as one set: the hosted kinds, gains, meters of energy, detectors of dialled digits, line echo cancellers,
//! ADPCM coders, generators of tones and detectors of voice activity.
#![tactic(auto)]

mod kind;

ghost use Rattle.ialg.specs.Meaning.{AreAlwaysLawful};
ghost use Rattle.alg_gain.specs.Equation.{gain_gives};
ghost use Rattle.alg_level.specs.Equation.{level_gives};
ghost use Rattle.alg_dtmf.specs.Equation.{dtmf_gives};
ghost use Rattle.kind_steps.specs.Pairings.{two_samples};
ghost use Rattle.kind_steps.specs.Recursions.{gives_of, tuning_by};
ghost use Rattle.kind_steps.specs.Steppings.{gives_in_steps};
ghost use Rattle.echo_kernel.specs.Equation.{cleared};
ghost use Rattle.adpcm_kernel.specs.Subblocks as adpcm;
ghost use Rattle.alg_adpcm.specs.Meaning.{coder_named};
ghost use Rattle.alg_signal.specs.Tones as tones;
ghost use Rattle.alg_activity.specs.Equation.{activity, frame_length};
ghost use Rattle.voice_set.specs.Voices.{voice_meaning};
ghost use Rattle.gateway_kinds.specs.Kinds.{of_voice, of_gain, of_level, of_dtmf, of_echo, of_adpcm, of_signal, of_activity, EachGivesAs, EachGivesBy};

use ialg::Ialg;
pub use kind::{GatewayKind, Sets};

/// The law that all kinds of a gateway keep IALG's laws for all parameters, refused ones too, in a host of any poison word and in one of
/// none. The call does nothing: its contract is the law.
pub fn gateway_kinds_are_lawful()
    ensures { AreAlwaysLawful ⟦<GatewayKind as Ialg>⟧.law.meaning }
{}

/// The law that each kind gives the outputs of its own equation: a voice what it gives among the voices, `gain` each sample times the
/// factor in force, `level` the energy of each frame, `dtmf` the code of each frame, `echo` the near end of each pair without the far end's
/// echo, `adpcm` what its sub-blocks make of each word, `signal` its tones while they sound, and `activity` for each frame whether somebody
/// talks. The call does nothing: its contract is the law.
pub fn gateway_kinds_give_their_equations()
    ensures voices { EachGivesAs ⟦<GatewayKind as Ialg>⟧.law.meaning of_voice voice_meaning }
    ensures gains { EachGivesBy ⟦<GatewayKind as Ialg>⟧.law.meaning of_gain gain_gives }
    ensures levels { EachGivesBy ⟦<GatewayKind as Ialg>⟧.law.meaning of_level level_gives }
    ensures digits { EachGivesBy ⟦<GatewayKind as Ialg>⟧.law.meaning of_dtmf dtmf_gives }
    ensures echoes { EachGivesBy ⟦<GatewayKind as Ialg>⟧.law.meaning of_echo (gives_in_steps two_samples cleared) }
    ensures codes { EachGivesBy ⟦<GatewayKind as Ialg>⟧.law.meaning of_adpcm (λ p. gives_of adpcm.initial_state adpcm.taken (tuning_by coder_named p)) }
    ensures tones { EachGivesBy ⟦<GatewayKind as Ialg>⟧.law.meaning of_signal
        (λ p. gives_of tones.initial_tones tones.taken (tuning_by tones.cadence_named p)) }
    ensures talk { EachGivesBy ⟦<GatewayKind as Ialg>⟧.law.meaning of_activity (gives_in_steps frame_length activity) }
{}

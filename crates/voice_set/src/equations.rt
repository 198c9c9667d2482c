//! What each voice gives, by its equation.
ghost use Rattle.std.specs.Prelude.{◌∷◌, []};
ghost use Rattle.ialg.specs.Meaning.{GivesByRule};
ghost use Rattle.alg_fir.specs.Equation.{fir_output};
ghost use Rattle.alg_fir.specs.Decimation.{decim_gives};
ghost use Rattle.alg_biquad.specs.Equation.{biquad_output};
ghost use Rattle.alg_tone.specs.Equation.{tone_gives};
ghost use Rattle.alg_g711.specs.Meaning.{coder_named, given_by};
ghost use Rattle.voice_set.specs.declared.voice.Voice.TheVariants.{Fir, Decim, Biquad, Tone, G711};
ghost use Rattle.voice_set.specs.Voices.{voice_meaning};

/// The law that each kind gives the outputs of its own equation: a voice's outputs, of which the headline of a run speaks, are for `fir`
/// and `biquad` the difference equation at each sample, for `decim` that of `fir` at each M-th one, for `tone` a level at each frame's
/// end, and for `g711` the code of each sample or the sample of each code. The call does nothing: its contract is the law.
pub fn voices_give_their_equations()
    ensures fir { GivesByRule voice_meaning Fir (λ p t. fir_output p t ∷ []) }
    ensures decim { GivesByRule voice_meaning Decim decim_gives }
    ensures biquad { GivesByRule voice_meaning Biquad (λ p t. biquad_output p t ∷ []) }
    ensures tone { GivesByRule voice_meaning Tone tone_gives }
    ensures g711 { GivesByRule voice_meaning G711 (λ p. given_by (coder_named p)) }
{}

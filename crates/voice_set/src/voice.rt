//! One of the hosted kinds.
ghost use Rattle.std.proofs.Common.{rules};
ghost use Rattle.std.specs.Cmp.Rules.{comparing};
ghost use Rattle.ialg.specs.Meaning.{AreAlwaysLawful};
ghost use Rattle.voice_set.specs.Voices.{voice_meaning, voice_named};
ghost use Rattle.voice_set.specs.Keeps.{voice_bound, voice_fill, IsIdle, IsActive};
ghost use Rattle.voice_set.specs.Kept.{idle_words, active_words, idle_fill, active_fill};

use alg_biquad::Biquad;
use alg_fir::{Decim, Fir};
use alg_g711::G711;
use alg_tone::Tone;
use ialg::{Block, Ctl, Ialg, Lent, Named, Params, Status, process_apart};
use mem_rec::MemTab;

/// One of the hosted kinds. Each call is that of the kind.
#[derive(Clone, Copy, PartialEq, Eq, Debug)]
pub enum Voice {
    /// `fir`: a finite impulse response filter.
    Fir,
    /// `decim`: such a filter that gives one output for so many samples.
    Decim,
    /// `biquad`: a filter of second order with feedback.
    Biquad,
    /// `tone`: Goertzel's detector of one tone.
    Tone,
    /// `g711`: an encoder or decoder of A-law or mu-law (ITU-T G.711).
    G711,
}

impl Named for Voice {
    ghost named = { voice_named };

    fn of_name(name: &[u8]) -> Option<Voice> {
        if name == b"fir".as_slice() {
            Some(Voice::Fir)
        } else if name == b"decim".as_slice() {
            Some(Voice::Decim)
        } else if name == b"biquad".as_slice() {
            Some(Voice::Biquad)
        } else if name == b"tone".as_slice() {
            Some(Voice::Tone)
        } else if name == b"g711".as_slice() {
            Some(Voice::G711)
        } else {
            None
        }
    }
}

impl Ialg for Voice {
    ghost law = { record {
      meaning = voice_meaning;
      bound = voice_bound;
      fill = voice_fill;
      idle_refines = IsIdle;
      active_refines = IsActive;
    } };

    fn alg_num_alloc(&self) -> usize {
        match self {
            Voice::Fir => Fir.alg_num_alloc(),
            Voice::Decim => Decim.alg_num_alloc(),
            Voice::Biquad => Biquad.alg_num_alloc(),
            Voice::Tone => Tone.alg_num_alloc(),
            Voice::G711 => G711.alg_num_alloc(),
        }
    }

    fn alg_alloc(&self, p: &Params) -> Option<MemTab> {
        match self {
            Voice::Fir => Fir.alg_alloc(p),
            Voice::Decim => Decim.alg_alloc(p),
            Voice::Biquad => Biquad.alg_alloc(p),
            Voice::Tone => Tone.alg_alloc(p),
            Voice::G711 => G711.alg_alloc(p),
        }
    }

    fn alg_init(&self, tab: &MemTab, p: &Params, mem: &mut Lent<'_>) {
        match self {
            Voice::Fir => Fir.alg_init(tab, p, mem),
            Voice::Decim => Decim.alg_init(tab, p, mem),
            Voice::Biquad => Biquad.alg_init(tab, p, mem),
            Voice::Tone => Tone.alg_init(tab, p, mem),
            Voice::G711 => G711.alg_init(tab, p, mem),
        }
    }

    fn alg_activate(&self, mem: &mut Lent<'_>) {
        match self {
            Voice::Fir => Fir.alg_activate(mem),
            Voice::Decim => Decim.alg_activate(mem),
            Voice::Biquad => Biquad.alg_activate(mem),
            Voice::Tone => Tone.alg_activate(mem),
            Voice::G711 => G711.alg_activate(mem),
        }
    }

    fn activate_and_process(&self, mem: &mut Lent<'_>, input: &[i16], out: &mut Block) {
        match self {
            Voice::Fir => Fir.activate_and_process(mem, input, out),
            Voice::Decim => Decim.activate_and_process(mem, input, out),
            Voice::Biquad => Biquad.activate_and_process(mem, input, out),
            Voice::Tone => Tone.activate_and_process(mem, input, out),
            Voice::G711 => G711.activate_and_process(mem, input, out),
        }
    }

    #[inline(always)]
    fn process(&self, mem: &mut Lent<'_>, input: &[i16], out: &mut Block) {
        match self {
            Voice::Fir => process_apart(&Fir, mem, input, out),
            Voice::Decim => process_apart(&Decim, mem, input, out),
            Voice::Biquad => process_apart(&Biquad, mem, input, out),
            Voice::Tone => process_apart(&Tone, mem, input, out),
            // inlined, and needs no loan in memory
            Voice::G711 => G711.process(mem, input, out),
        }
    }

    #[inline(always)]
    fn process_sample(&self, object: &[i16], once: &[i16], x: i16) -> Option<i16> {
        match self {
            Voice::G711 => G711.process_sample(object, once, x),
            Voice::Fir | Voice::Decim | Voice::Biquad | Voice::Tone => None,
        }
    }

    fn alg_deactivate(&self, mem: &mut Lent<'_>) {
        match self {
            Voice::Fir => Fir.alg_deactivate(mem),
            Voice::Decim => Decim.alg_deactivate(mem),
            Voice::Biquad => Biquad.alg_deactivate(mem),
            Voice::Tone => Tone.alg_deactivate(mem),
            Voice::G711 => G711.alg_deactivate(mem),
        }
    }

    fn alg_moved(&self, tab: &MemTab, mem: &mut Lent<'_>) {
        match self {
            Voice::Fir => Fir.alg_moved(tab, mem),
            Voice::Decim => Decim.alg_moved(tab, mem),
            Voice::Biquad => Biquad.alg_moved(tab, mem),
            Voice::Tone => Tone.alg_moved(tab, mem),
            Voice::G711 => G711.alg_moved(tab, mem),
        }
    }

    fn accepts(&self, p: &Params, c: &Ctl) -> bool {
        match self {
            Voice::Fir => Fir.accepts(p, c),
            Voice::Decim => Decim.accepts(p, c),
            Voice::Biquad => Biquad.accepts(p, c),
            Voice::Tone => Tone.accepts(p, c),
            Voice::G711 => G711.accepts(p, c),
        }
    }

    fn alg_control(&self, mem: &mut Lent<'_>, c: &Ctl) -> Status {
        match self {
            Voice::Fir => Fir.alg_control(mem, c),
            Voice::Decim => Decim.alg_control(mem, c),
            Voice::Biquad => Biquad.alg_control(mem, c),
            Voice::Tone => Tone.alg_control(mem, c),
            Voice::G711 => G711.alg_control(mem, c),
        }
    }

    fn alg_free(&self, mem: &Lent<'_>) -> MemTab {
        match self {
            Voice::Fir => Fir.alg_free(mem),
            Voice::Decim => Decim.alg_free(mem),
            Voice::Biquad => Biquad.alg_free(mem),
            Voice::Tone => Tone.alg_free(mem),
            Voice::G711 => G711.alg_free(mem),
        }
    }

    ghost same = { Prim.search (comparing, rules) };

    ghost compared = { Prim.search (comparing, rules) };

    ghost idle_words = { idle_words };

    ghost active_words = { active_words };

    ghost idle_fill = { idle_fill };

    ghost active_fill = { active_fill };
}

/// The law that all kinds keep IALG's laws for all parameters, refused ones too, in a host of any poison word and in one
/// of none. The call does nothing: its contract is the law.
pub fn voices_are_lawful()
    ensures { AreAlwaysLawful voice_meaning }
{}

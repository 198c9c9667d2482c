//! The kind `G711`: its calls find the coder in the object, and leave the words to it.
ghost use Rattle.std.specs.Prelude.{◌≡◌, ◌<◌, ◌≤◌, ◌%◌, ◌++◌, ◌∷◌, ◌↔◌, IsTrue, Option, Some, ℕ, ℤ, [], List, length, map, true, FitsSigned};
ghost use Rattle.std.specs.List.{All};
ghost use Rattle.std.specs.Int.{w16, cast_unsigned};
ghost use Rattle.mem_rec.specs.declared.MemRec.{MemRec};
ghost use Rattle.mem_rec.specs.declared.Space.TheVariants.{External};
ghost use Rattle.ialg.specs.declared.TheConstants.{OBJECT_WORDS};
ghost use Rattle.ialg.specs.History.{History, Control, with_samples, word_at};
ghost use Rattle.ialg.specs.Records.{AllLent, unplaced};
ghost use Rattle.ialg.specs.Loans.{lent_words, SameLoans, SameBut};
ghost use Rattle.ialg.specs.Objects.{NamedAt, Names};
ghost use Rattle.alg_g711.specs.declared.TheConstants.{CODER_RECORDS};
ghost use Rattle.alg_g711.specs.declared.coder.Direction.TheVariants.{Encode, Decode};
ghost use Rattle.alg_g711.specs.Companding.{samples_of_codes};
ghost use Rattle.alg_g711.specs.Keeps.{Keeps, fill_of};
ghost use Rattle.alg_g711.specs.Meaning.{coded, coder_named, g711_meaning, kind_word, records_of};

use crate::blocks::{decode_words, encode_words, sample_of, write_samples};
use crate::coder::{Coder, Direction};
use crate::companding::{Law, encode_alone};
use crate::{A_DECODER_KIND, CODER_RECORDS, CODES, MU_DECODER_KIND};
use ialg::{BLOCK_SAMPLES, Block, Ctl, Ialg, Lent, Params, Record, Status, Words, copied};
use mem_rec::{MemTab, Space};

/// The number of the record of the samples of the codes.
const SAMPLES: usize = 1;

/// A coder by G.711. Its parameters are the law, 0 for A and 1 for mu, and the direction: 0 encodes samples, 1 decodes codes.
/// It gives one output per sample. A code stands in the lower octet of a word: an encoder gives words of 0 to 255, and
/// a decoder ignores the upper octet.
///
/// A decoder has a write-once record of the samples of all codes; no coder has a state.
#[derive(Clone, Copy, PartialEq, Eq, Debug)]
pub struct G711;

impl Ialg for G711 {
    ghost law = { record {
      meaning = g711_meaning;
      bound = λ _. CODER_RECORDS;
      fill = λ _ p. fill_of (coder_named p);
      idle_refines = λ _ p rs wss l. Keeps p rs wss l.history;
      active_refines = λ _ p rs wss l. Keeps p rs wss l.history;
    } };

    fn alg_num_alloc(&self) -> usize {
        CODER_RECORDS
    }

    fn alg_alloc(&self, p: &Params) -> Option<MemTab> {
        match Coder::by_parameters(p.as_slice()) {
            Some(coder) => coder.table(),
            None => None,
        }
    }

    fn alg_init(&self, tab: &MemTab, p: &Params, mem: &mut Lent<'_>) {
        let Some(coder) = Coder::by_parameters(p.as_slice()) else {
            return;
        };
        write_object_of(coder, tab, mem);
        match coder.direction {
            Direction::Encode => {}
            Direction::Decode => fill(coder.law, mem),
        }
    }

    fn alg_activate(&self, _mem: &mut Lent<'_>) {}

    #[inline(always)]
    fn process(&self, mem: &mut Lent<'_>, input: &[i16], out: &mut Block) {
        run(mem, input, out);
    }

    /// A decoder keeps nothing of its codes, so its record of samples tells what a code gives. An encoder has no such record, and is run.
    #[inline(always)]
    fn process_sample(&self, _object: &[i16], once: &[i16], x: i16) -> Option<i16> {
        if once.len() == CODES {
            Some(sample_of(once, x))
        } else {
            None
        }
    }

    fn alg_deactivate(&self, _mem: &mut Lent<'_>) {}

    fn alg_moved(&self, tab: &MemTab, mem: &mut Lent<'_>) {
        let Some(coder) = coder_of(mem.object()) else {
            return;
        };
        write_object_of(coder, tab, mem);
    }

    fn accepts(&self, _p: &Params, c: &Ctl) -> bool {
        match c {
            Ctl::Set(_) => false,
            Ctl::Reset | Ctl::Get => true,
        }
    }

    fn alg_control(&self, mem: &mut Lent<'_>, c: &Ctl) -> Status {
        match c {
            Ctl::Set(_) | Ctl::Reset => Status::Done,
            Ctl::Get => Status::Words(get(mem)),
        }
    }

    fn alg_free(&self, mem: &Lent<'_>) -> MemTab {
        mem.table().copied()
    }

    ghost same = { λ a b e i. a };

    ghost compared = { λ a b i. true };

    ghost idle_words = { λ _ p rs wss h keeps. keeps.history };

    ghost active_words = { λ _ p rs wss h keeps. keeps.history };

    ghost idle_fill = { λ _ p rs wss h keeps. keeps.samples };

    ghost active_fill = { λ _ p rs wss h keeps. keeps.samples };
}

/// The coder that the object names by its kind word.
fn coder_of(object: &[i16]) -> Option<Coder>
    ensures { (coder : Coder) (records table : List MemRec)
        → Names (kind_word coder.law coder.direction) records table object.now → result ≡ Some coder }
{
    if object.is_empty() {
        return None;
    }
    Coder::by_kind(object[0])
}

/// Whether the object's kind word is a decoder's.
fn is_decoder(object: &[i16]) -> bool
    ensures { (coder : Coder) (records table : List MemRec)
        → Names (kind_word coder.law coder.direction) records table object.now → IsTrue result ↔ (coder.direction ≡ Decode) }
{
    match object {
        [kind, ..] => *kind == A_DECODER_KIND || *kind == MU_DECODER_KIND,
        [] => false,
    }
}

/// Writes the instance object: the kind word, and the bases of the table.
fn write_object_of(coder: Coder, tab: &MemTab, mem: &mut Lent<'_>)
    ensures loans { SameLoans mem.old mem.new }
    ensures others { SameBut 0 mem.old mem.new }
    ensures names { length mem.old.r0.now ≡ OBJECT_WORDS
        → Names (kind_word coder.law coder.direction) (unplaced tab.now) tab.now mem.new.r0.now }
{
    mem.name_records(coder.kind(), tab);
}

/// Writes the samples of the codes into the record that the object names.
fn fill(law: Law, mem: &mut Lent<'_>)
    ensures loans { SameLoans mem.old mem.new }
    ensures object { NamedAt mem.old External 1 (kind_word law Decode) (records_of Decode) → mem.old.writable ≡ true
        → mem.new.r0.now ≡ mem.old.r0.now }
    ensures samples { NamedAt mem.old External 1 (kind_word law Decode) (records_of Decode) → mem.old.writable ≡ true
        → length mem.old.r1.now ≡ CODES → mem.new.r1.now ≡ samples_of_codes law }
{
    let Some(taken) = mem.take_named(Space::External, SAMPLES) else {
        return;
    };
    let Record { k, words } = taken;
    write_samples(law, words);
    mem.put(k, words);
}

/// Gives out one word for each word of the block.
#[inline(always)]
fn run(mem: &Lent<'_>, input: &[i16], out: &mut Block)
    requires within { length input.now ≤ BLOCK_SAMPLES }
    requires empty { out.old.items ≡ [] }
    ensures bounded { length out.new.items ≤ length input.now }
    ensures law { (p : List ℤ) (h : History) (keeps : Keeps p mem.now.table.now (lent_words mem.now) h)
        → AllLent mem.now.table.now (lent_words mem.now)
        → out.new.items ≡ map (coded keeps.coder.law keeps.coder.direction) input.now }
    ensures read { (p : List ℤ) (h : History) → Keeps p mem.now.table.now (lent_words mem.now) h
        → AllLent mem.now.table.now (lent_words mem.now) → All (FitsSigned w16) input.now }
{
    let object = mem.object();
    if is_decoder(object) {
        decode_block(mem, input, out);
    } else {
        encode_by(object, input, out);
    }
}

/// Gives out the codes of the samples, by the law that the object names.
///
/// A call of its own, so that a decoder finds out that it is one, and no more.
#[inline(never)]
fn encode_by(object: &[i16], input: &[i16], out: &mut Block)
    requires within { length input.now ≤ BLOCK_SAMPLES }
    requires empty { out.old.items ≡ [] }
    ensures bounded { length out.new.items ≤ length input.now }
    ensures given { (law : Law) (records table : List MemRec) → Names (kind_word law Encode) records table object.now
        → out.new.items ≡ map (coded law Encode) input.now }
    ensures read { (law : Law) (records table : List MemRec) → Names (kind_word law Encode) records table object.now
        → All (FitsSigned w16) input.now }
{
    if let Some(coder) = coder_of(object) {
        encode_block(coder.law, input, out);
    }
}

/// Gives out the codes of the samples. One sample needs no loop.
fn encode_block(law: Law, input: &[i16], out: &mut Block)
    requires within { length input.now ≤ BLOCK_SAMPLES }
    requires empty { out.old.items ≡ [] }
    ensures given { out.new.items ≡ map (coded law Encode) input.now }
    ensures read { All (FitsSigned w16) input.now }
{
    match input {
        [sample] => {
            out.push(i16::from(encode_alone(law, *sample)));
        }
        _ => {
            out.set_len(input.len());
            let (codes, _room) = out.room_mut().split_at_mut(input.len());
            encode_words(law, input, codes);
        }
    }
}

/// Gives out the samples of the codes, by the samples that `mem` has.
#[inline(always)]
fn decode_block(mem: &Lent<'_>, input: &[i16], out: &mut Block)
    requires within { length input.now ≤ BLOCK_SAMPLES }
    requires empty { out.old.items ≡ [] }
    ensures bounded { length out.new.items ≤ length input.now }
    ensures law { (law : Law) → NamedAt mem.now External 1 (kind_word law Decode) (records_of Decode)
        → mem.now.r1.now ≡ samples_of_codes law → out.new.items ≡ map (coded law Decode) input.now }
    ensures read { (law : Law) → NamedAt mem.now External 1 (kind_word law Decode) (records_of Decode)
        → mem.now.r1.now ≡ samples_of_codes law → All (FitsSigned w16) input.now }
{
    let Some(table) = mem.read_named(Space::External, SAMPLES) else {
        return;
    };
    if table.len() == CODES {
        decode_by(table, input, out);
    }
}

/// Gives out the samples of the codes, by the samples of all codes. One code needs no loop.
#[inline(always)]
fn decode_by(table: &[i16], input: &[i16], out: &mut Block)
    requires all { length table.now ≡ CODES }
    requires within { length input.now ≤ BLOCK_SAMPLES }
    requires empty { out.old.items ≡ [] }
    ensures count { length out.new.items ≡ length input.now }
    ensures samples { (k : ℕ) → k < length input.now
        → word_at out.new.items k ≡ word_at table.now (cast_unsigned w16 (word_at input.now k) % CODES) }
    ensures read { All (FitsSigned w16) input.now }
{
    match input {
        [code] => {
            out.push(sample_of(table, *code));
        }
        _ => {
            out.set_len(input.len());
            let (samples, _room) = out.room_mut().split_at_mut(input.len());
            decode_words(table, input, samples);
        }
    }
}

/// The answer to `get`.
fn get(mem: &Lent<'_>) -> Words
    ensures { (p : List ℤ) (h : History) → Keeps p mem.now.table.now (lent_words mem.now) h → result.items ≡ p }
{
    match coder_of(mem.object()) {
        Some(coder) => copied(&coder.parameters()),
        None => Words::new(),
    }
}

//! Replies and their texts.
ghost use Rattle.std.specs.Prelude.{◌≡◌, ◌≤◌, ◌+◌, ◌*◌, ◌++◌, ◌<◌, [], length, decimal};
ghost use Rattle.std.specs.List.{flat_map};
ghost use Rattle.std.specs.Fmt.{signed_decimal};
ghost use Rattle.ialg.specs.Refusals.{refusal_name};
ghost use Rattle.voice_script.specs.Replies.{owner_text, line_text, reply_text, Stat as told_stat, No as told_no};
ghost use Rattle.voice_script.specs.Readings.{active_text, word_text, entry_text};

use crate::limits::{
    BYTE_DIGITS, ENTRY_OCTETS, NAME_OCTETS, NUMBER_DIGITS, OWNER_OCTETS, REPLY_OCTETS,
    WORD_TEXT_OCTETS,
};
use arrayvec::ArrayVec;
use host_map::{Map, Owner, Placed, Stat};
use ialg::{Refusal, Words};

/// The line of a reply.
pub type ReplyText = ArrayVec<u8, REPLY_OCTETS>;

/// What is replied to a command. A map is thousands of octets and words are more than a hundred, so their replies name them where they
/// stand.
#[derive(Drop)]
pub enum Reply<'a> {
    /// It is done.
    Done,
    /// An instance's words.
    Words(&'a Words),
    /// So many samples were output, or so many blocks were moved.
    Count(u32),
    /// Whether something was there to do.
    Flag(bool),
    /// A group's active member and activations.
    Stat(Stat),
    /// The blocks of a space, in the order of their places.
    Map(&'a Map),
    /// It is refused.
    No(Refusal),
}

/// Writes these bytes.
fn push_all(text: &mut ReplyText, octets: &[u8])
    requires { length text.old.items + length octets.now ≤ REPLY_OCTETS }
    ensures { text.new.items ≡ text.old.items ++ octets.now }
{
    let _fits = text.try_extend_from_slice(octets);
}

/// Writes a number in decimal digits.
fn push_digits(text: &mut ReplyText, number: u32)
    requires { length text.old.items + length (decimal number) ≤ REPLY_OCTETS }
    ensures { text.new.items ≡ text.old.items ++ decimal number }
{
    if number >= 10 {
        push_digits(text, number / 10);
    }
    text.push(b'0' + (number % 10) as u8);
}

/// Writes a number.
fn push_number(text: &mut ReplyText, number: u32)
    requires { length text.old.items + NUMBER_DIGITS ≤ REPLY_OCTETS }
    ensures text { text.new.items ≡ text.old.items ++ decimal number }
    ensures few { length (decimal number) ≤ NUMBER_DIGITS }
{
    push_digits(text, number);
}

/// Puts the number of an instance, a record or a group.
fn push_byte(text: &mut ReplyText, number: u8)
    requires { length text.old.items + BYTE_DIGITS ≤ REPLY_OCTETS }
    ensures text { text.new.items ≡ text.old.items ++ decimal number }
    ensures few { length (decimal number) ≤ BYTE_DIGITS }
{
    push_digits(text, u32::from(number));
}

/// Puts a space and the word.
fn push_word(text: &mut ReplyText, word: i16)
    requires { length text.old.items + WORD_TEXT_OCTETS ≤ REPLY_OCTETS }
    ensures text { text.new.items ≡ text.old.items ++ word_text word }
    ensures room { length text.new.items ≤ length text.old.items + WORD_TEXT_OCTETS }
{
    push_all(text, b" ");
    if word < 0 {
        push_all(text, b"-");
    }
    push_number(text, u32::from(word.unsigned_abs()));
}

/// Puts each word after one space.
fn push_words(text: &mut ReplyText, words: &[i16])
    requires { length text.old.items + length words.now * WORD_TEXT_OCTETS ≤ REPLY_OCTETS }
    ensures text { text.new.items ≡ text.old.items ++ flat_map word_text words.now }
    ensures room { length text.new.items ≤ length text.old.items + length words.now * WORD_TEXT_OCTETS }
{
    for word in words {
        push_word(text, *word);
    }
}

/// Writes the owner of a block: an instance and its record, or a group.
fn push_owner(text: &mut ReplyText, owner: Owner)
    requires { length text.old.items + OWNER_OCTETS ≤ REPLY_OCTETS }
    ensures text { text.new.items ≡ text.old.items ++ owner_text owner }
    ensures room { length text.new.items ≤ length text.old.items + OWNER_OCTETS }
{
    match owner {
        Owner::Record(instance, record) => {
            push_all(text, b"i");
            push_byte(text, instance);
            push_all(text, b".r");
            push_byte(text, record);
        }
        Owner::Scratch(group) => {
            push_all(text, b"g");
            push_byte(text, group);
        }
    }
}

/// Puts a space and the block.
fn push_entry(text: &mut ReplyText, block: Placed)
    requires { length text.old.items + ENTRY_OCTETS ≤ REPLY_OCTETS }
    ensures text { text.new.items ≡ text.old.items ++ entry_text block }
    ensures room { length text.new.items ≤ length text.old.items + ENTRY_OCTETS }
{
    push_all(text, b" ");
    push_owner(text, block.owner);
    push_all(text, b"@");
    push_number(text, block.place);
    push_all(text, b"+");
    push_number(text, block.size);
}

/// Puts each block after one space.
fn push_map(text: &mut ReplyText, blocks: &[Placed])
    requires { length text.old.items + length blocks.now * ENTRY_OCTETS ≤ REPLY_OCTETS }
    ensures text { text.new.items ≡ text.old.items ++ flat_map entry_text blocks.now }
    ensures room { length text.new.items ≤ length text.old.items + length blocks.now * ENTRY_OCTETS }
{
    for block in blocks {
        push_entry(text, *block);
    }
}

/// Puts the number of the active member, or a minus.
fn push_active(text: &mut ReplyText, active: Option<u8>)
    requires { length text.old.items + BYTE_DIGITS ≤ REPLY_OCTETS }
    ensures text { text.new.items ≡ text.old.items ++ active_text active }
    ensures room { length text.new.items ≤ length text.old.items + BYTE_DIGITS }
{
    match active {
        Some(member) => push_byte(text, member),
        None => push_all(text, b"-"),
    }
}

/// Writes the reply to `stat`.
fn push_stat(text: &mut ReplyText, stat: Stat)
    requires { text.old.items ≡ [] }
    ensures line { text.new.items ≡ line_text (told_stat stat.active stat.activations) }
    ensures room { length text.new.items < REPLY_OCTETS }
{
    push_all(text, b"ok ");
    push_active(text, stat.active);
    push_all(text, b" ");
    push_number(text, stat.activations);
}

/// Puts the name of a refusal.
fn push_name(text: &mut ReplyText, refusal: Refusal)
    requires { length text.old.items + NAME_OCTETS ≤ REPLY_OCTETS }
    ensures text { text.new.items ≡ text.old.items ++ refusal_name refusal }
    ensures room { length text.new.items ≤ length text.old.items + NAME_OCTETS }
{
    push_all(text, refusal.name().as_bytes());
}

/// Writes the reply to a refused line.
fn push_refusal(text: &mut ReplyText, refusal: Refusal)
    requires { text.old.items ≡ [] }
    ensures line { text.new.items ≡ line_text (told_no refusal) }
    ensures room { length text.new.items < REPLY_OCTETS }
{
    push_all(text, b"no ");
    push_number(text, u32::from(refusal.number()));
    push_all(text, b" ");
    push_name(text, refusal);
}

impl Reply<'_> {
    ghost use Rattle.voice_script.specs.ReplyViews.{is_refusal, reply_of};

    /// Puts the line without its line feed.
    fn push_line(&self, text: &mut ReplyText)
        requires { text.old.items ≡ [] }
        ensures line { text.new.items ≡ line_text (reply_of self.now) }
        ensures room { length text.new.items < REPLY_OCTETS }
    {
        match self {
            Reply::Done => push_all(text, b"ok"),
            Reply::Words(words) => {
                push_all(text, b"ok");
                push_words(text, words.as_slice());
            }
            Reply::Count(count) => {
                push_all(text, b"ok ");
                push_number(text, *count);
            }
            Reply::Flag(flag) => push_all(text, if *flag { b"ok 1" } else { b"ok 0" }),
            Reply::Stat(stat) => push_stat(text, *stat),
            Reply::Map(blocks) => {
                push_all(text, b"ok");
                push_map(text, blocks.as_slice());
            }
            Reply::No(refusal) => push_refusal(text, *refusal),
        }
    }

    /// Whether this is a refusal.
    pub fn is_refusal(&self) -> bool
        ensures { result ≡ is_refusal (reply_of self.now) }
    {
        matches!(self, Reply::No(_))
    }
}

ghost use Rattle.voice_script.specs.ReplyViews.{reply_of};

/// Puts the line of a reply, with its line feed, in place of what the text held.
pub fn write_reply(reply: &Reply<'_>, text: &mut ReplyText)
    ensures { text.new.items ≡ reply_text (reply_of reply.now) }
{
    text.clear();
    reply.push_line(text);
    text.push(b'\n');
}

/// The line of a reply, with its line feed. It is put in place of what the text held, but for the one that most commands have.
#[inline(always)]
pub fn line_of<'x>(reply: &Reply<'_>, text: &'x mut ReplyText) -> &'x [u8]
    ensures { result.now ≡ reply_text (reply_of reply.now) }
{
    if matches!(reply, Reply::Done) {
        return b"ok\n";
    }
    write_reply(reply, text);
    text.as_slice()
}

/// The line that is written for a reply, with its line feed.
pub fn reply_text(reply: &Reply<'_>) -> ReplyText
    ensures { result.items ≡ reply_text (reply_of reply.now) }
{
    let mut text = ReplyText::new();
    write_reply(reply, &mut text);
    text
}

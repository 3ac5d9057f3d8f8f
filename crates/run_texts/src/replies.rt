//! The replies of `step`: a line for each entry of the book, client by client.
ghost use Rattle.std.specs.Prelude.{◌≡◌, ◌<◌, [], ◌∷◌, ◌++◌, IfSome, decimal, codes};
ghost use Rattle.run_texts.specs.Texts.{as_text};
ghost use Rattle.run_texts.specs.Hex.{hex_or_dash, hex_sum};
ghost use Rattle.run_texts.specs.Printed.{output};
ghost use Rattle.run_texts.specs.Printing.{AddsText};
ghost use Rattle.run_texts.specs.Replies.{refusal_text, bytes_word, csum_text, names_text, reply_text, entry_line, client_lines, reply_lines};
ghost use Rattle.run_texts.specs.ReplyIndex.{IsIndexOf};
ghost use Rattle.run_texts.specs.Replies.{is_accepted, counts_as_refused, is_csum, is_read, is_of, has_csum, answers_of, done_line};

use crate::hex::{push_hex_or_dash, push_hex_sum};
use crate::names::push_name;
use crate::printer::Printer;
use crate::reply_index::{CLIENTS, ReplyIndex, first_place, is_acked_at, place_behind};
use byte_maps::Bytes;
use end_points::Sink;
use object_model::{Answer, Asked, Book, Entry, ReadKind, Refusal};
use std::alloc::Global;
use unit_fields::UnitNo;

fn refusal_text(refusal: Refusal) -> &'static str
    ensures { result.now ≡ refusal_text refusal }
{
    match refusal {
        Refusal::NoCollection => "E1 NoCollection",
        Refusal::CollectionExists => "E2 CollectionExists",
        Refusal::NotEmpty => "E3 NotEmpty",
        Refusal::NoObject => "E4 NoObject",
        Refusal::NoAttr => "E5 NoAttr",
        Refusal::SameObject => "E6 SameObject",
        Refusal::BadRange => "E7 BadRange",
        Refusal::TooBig => "E8 TooBig",
    }
}

/// What stands before the bytes that a command has read.
fn bytes_word(command: &Asked) -> &'static str
    ensures { result.now ≡ bytes_word command.now }
{
    match command.read_kind() {
        Some(ReadKind::Bytes) => "data ",
        Some(ReadKind::GetAttr) => "attr ",
        Some(ReadKind::OmapGet) => "omap ",
        Some(ReadKind::OmapHeader) => "header ",
        _ => "",
    }
}

/// Adds the reply that names a unit with another checksum than the one that is kept for it. Lines of `dump` have it too.
pub fn push_csum<K: Sink>(text: &mut Printer, out: &mut K, unit: UnitNo, kept: u32, found: u32)
    ensures { AddsText (csum_text unit kept found) text.old text.new
        (output (K.written out.old) (K.faults out.old)) (output (K.written out.new) (K.faults out.new)) }
{
    text.push_str(out, "E14 Csum unit=");
    text.push_number(out, unit.number() as u64);
    text.push_str(out, " kept=");
    push_hex_sum(text, out, kept);
    text.push_str(out, " found=");
    push_hex_sum(text, out, found)
}

/// Adds the bytes that a command has read.
fn push_bytes<K: Sink>(text: &mut Printer, out: &mut K, command: &Asked, bytes: &[u8])
    ensures { AddsText (bytes_word command.now ++ hex_or_dash bytes.now) text.old text.new
        (output (K.written out.old) (K.faults out.old)) (output (K.written out.new) (K.faults out.new)) }
{
    text.push_str(out, bytes_word(command));
    push_hex_or_dash(text, out, bytes)
}

/// Adds an object's size and the checksum of its bytes.
fn push_sum<K: Sink>(text: &mut Printer, out: &mut K, size: u64, crc: u32)
    ensures { AddsText (codes "sum " ++ decimal size ++ codes " " ++ hex_sum crc) text.old text.new
        (output (K.written out.old) (K.faults out.old)) (output (K.written out.new) (K.faults out.new)) }
{
    text.push_str(out, "sum ");
    text.push_number(out, size);
    text.push_str(out, " ");
    push_hex_sum(text, out, crc)
}

/// Adds names, each behind a space.
fn push_names<K: Sink>(text: &mut Printer, out: &mut K, names: &[Bytes])
    ensures { AddsText (names_text names.now) text.old text.new
        (output (K.written out.old) (K.faults out.old)) (output (K.written out.new) (K.faults out.new)) }
{
    for name in names {
        text.push_str(out, " ");
        push_name(text, out, name.as_slice());
    }
}

/// Adds a reply with two numbers, each behind its word.
fn push_two<K: Sink>(text: &mut Printer, out: &mut K, first: &str, a: u32, second: &str, b: u32)
    ensures { AddsText (first.now ++ decimal a ++ second.now ++ decimal b) text.old text.new
        (output (K.written out.old) (K.faults out.old)) (output (K.written out.new) (K.faults out.new)) }
{
    text.push_str(out, first);
    text.push_number(out, a as u64);
    text.push_str(out, second);
    text.push_number(out, b as u64)
}

/// Adds an object's size.
fn push_size<K: Sink>(text: &mut Printer, out: &mut K, size: u64)
    ensures { AddsText (codes "size " ++ decimal size) text.old text.new
        (output (K.written out.old) (K.faults out.old)) (output (K.written out.new) (K.faults out.new)) }
{
    text.push_str(out, "size ");
    text.push_number(out, size)
}

/// Adds the names of a collection's objects.
fn push_objects<K: Sink>(text: &mut Printer, out: &mut K, names: &[Bytes])
    ensures { AddsText (codes "objects" ++ names_text names.now) text.old text.new
        (output (K.written out.old) (K.faults out.old)) (output (K.written out.new) (K.faults out.new)) }
{
    text.push_str(out, "objects");
    push_names(text, out, names)
}

/// Adds the reply to the entry's command, whose commit is acknowledged, or not.
fn push_reply<K: Sink>(text: &mut Printer, out: &mut K, acked: bool, entry: &Entry)
    ensures { AddsText (reply_text acked entry.now.command entry.now.answer) text.old text.new
        (output (K.written out.old) (K.faults out.old)) (output (K.written out.new) (K.faults out.new)) }
{
    match &entry.answer {
        Answer::Accepted if acked => text.push_str(out, "ok"),
        Answer::Accepted => text.push_str(out, "sent"),
        Answer::Refused(refusal) => text.push_str(out, refusal_text(*refusal)),
        Answer::NoSpace { need, free } => push_two(
            text,
            out,
            "E9 NoSpace need=",
            *need,
            " free=",
            *free,
        ),
        Answer::MetaFull { need, room } => push_two(
            text,
            out,
            "E10 MetaFull need=",
            *need,
            " room=",
            *room,
        ),
        Answer::Csum { unit, kept, found } => push_csum(text, out, *unit, *kept, *found),
        Answer::Bytes(bytes) => push_bytes(text, out, &entry.command, bytes.as_slice()),
        Answer::Size(size) => push_size(text, out, *size),
        Answer::Sum { size, crc } => push_sum(text, out, *size, *crc),
        Answer::Names(names) => push_objects(text, out, names.as_slice()),
    }
}

/// Adds the line of an entry whose commit is acknowledged, or not.
fn push_entry<K: Sink>(text: &mut Printer, out: &mut K, acked: bool, entry: &Entry)
    ensures { AddsText (entry_line acked entry.now ++ 10 ∷ []) text.old text.new
        (output (K.written out.old) (K.faults out.old)) (output (K.written out.new) (K.faults out.new)) }
{
    text.push_number(out, entry.client as u64);
    text.push_str(out, ":");
    text.push_number(out, entry.line as u64);
    text.push_str(out, " ");
    push_reply(text, out, acked, entry);
    text.push_str(out, "\n")
}

/// Adds the lines of the entries of one client.
fn push_client<K: Sink>(
    text: &mut Printer,
    out: &mut K,
    book: &Book,
    index: &Option<ReplyIndex>,
    client: usize,
)
    requires client { client < 64 }
    requires index { IfSome index.now (λ index. IsIndexOf index book.now.commits book.now.entries) }
    ensures { AddsText (as_text (client_lines book.now.commits client 0 book.now.entries)) text.old text.new
        (output (K.written out.old) (K.faults out.old)) (output (K.written out.new) (K.faults out.new)) }
{
    let entries = book.entries.as_slice();
    let mut place = first_place(entries, index, client);
    while place < entries.len() {
        let acked = is_acked_at(book.commits.as_slice(), index, place);
        push_entry(text, out, acked, &entries[place]);
        place = place_behind(entries, index, client, place);
    }
}

/// Adds the lines of the book's entries, client by client. Where the entries of each client are, and which of them are
/// acknowledged, is noted beforehand; where there is no memory for that it is looked for.
pub fn push_replies<K: Sink>(alloc: Global, text: &mut Printer, out: &mut K, book: &Book)
    ensures { AddsText (as_text (reply_lines book.now)) text.old text.new
        (output (K.written out.old) (K.faults out.old)) (output (K.written out.new) (K.faults out.new)) }
{
    let index = ReplyIndex::of(alloc, book.commits.as_slice(), book.entries.as_slice()).ok();
    for client in 0..CLIENTS {
        push_client(text, out, book, &index, client);
    }
}

/// A kind of answers that are counted together.
#[derive(Clone, Copy)]
enum Kind {
    /// A transaction was accepted.
    Accepted,
    /// A transaction or a read was refused.
    Refused,
    /// A read was answered.
    Read,
}

fn is_accepted(answer: &Answer) -> bool
    ensures { result ≡ is_accepted answer.now }
{
    matches!(answer, Answer::Accepted)
}

fn counts_as_refused(answer: &Answer) -> bool
    ensures { result ≡ counts_as_refused answer.now }
{
    match answer {
        Answer::Refused(_) | Answer::NoSpace { .. } => true,
        Answer::MetaFull { .. } | Answer::Csum { .. } => true,
        _ => false,
    }
}

fn is_csum(answer: &Answer) -> bool
    ensures { result ≡ is_csum answer.now }
{
    matches!(answer, Answer::Csum { .. })
}

fn is_read(answer: &Answer) -> bool
    ensures { result ≡ is_read answer.now }
{
    match answer {
        Answer::Bytes(_) | Answer::Size(_) => true,
        Answer::Sum { .. } | Answer::Names(_) => true,
        _ => false,
    }
}

fn is_of(kind: Kind, answer: &Answer) -> bool
    ensures { result ≡ is_of kind answer.now }
{
    match kind {
        Kind::Accepted => is_accepted(answer),
        Kind::Refused => counts_as_refused(answer),
        Kind::Read => is_read(answer),
    }
}

/// Whether some reply names a bad unit: the run then has the status of a store that isn't mounted, whatever ends it.
pub fn has_csum(entries: &[Entry]) -> bool
    ensures { result ≡ has_csum entries.now }
{
    entries.iter().any(|entry| is_csum(&entry.answer))
}

/// How many answers of a kind there are.
fn count(kind: Kind, entries: &[Entry]) -> usize
    ensures { result ≡ answers_of kind entries.now }
{
    let mut count = 0;
    for entry in entries {
        if is_of(kind, &entry.answer) {
            count += 1;
        }
    }
    count
}

/// Adds the last line of a run whose work was done, with so many units free at its end.
pub fn push_done<K: Sink>(text: &mut Printer, out: &mut K, book: &Book, free: u32)
    ensures { AddsText (as_text (done_line book.now free ∷ [])) text.old text.new
        (output (K.written out.old) (K.faults out.old)) (output (K.written out.new) (K.faults out.new)) }
{
    let entries = book.entries.as_slice();
    text.push_str(out, "done accepted=");
    text.push_number(out, count(Kind::Accepted, entries) as u64);
    text.push_str(out, " refused=");
    text.push_number(out, count(Kind::Refused, entries) as u64);
    text.push_str(out, " reads=");
    text.push_number(out, count(Kind::Read, entries) as u64);
    text.push_str(out, " commits=");
    text.push_number(out, book.commits.len() as u64);
    text.push_str(out, " free=");
    text.push_number(out, free as u64);
    text.push_str(out, "\n")
}

//! Reads that the kernel answers.
use block_device::MemoryDevice;
use case_text::{CaseError, Text, Words, print_bytes};
use object_lines::question as question_of;
use object_model::{Answer, Read};
use plain_reader::coll_of;
use std::alloc::Global;
use store_kernel::{Kernel, Unanswered};

/// The read of these words: a collection, and a read in the words of the reference store's cases.
pub fn question(alloc: Global, mut words: Words<'_>) -> Result<Read, CaseError> {
    let coll = coll_of(alloc, words.next()?.as_bytes())?;
    match question_of(alloc, &coll, words.text())? {
        Some(read) => Ok(read),
        None => Err(CaseError::Line("no read")),
    }
}

fn print_answer(answer: &Answer, out: &mut Text) {
    match answer {
        Answer::Bytes(bytes) => {
            out.print("bytes");
            print_bytes(out, bytes.as_slice());
        }
        Answer::Size(size) => out.print(format_args!("size {size}")),
        Answer::Sum { size, crc } => out.print(format_args!("sum {size} {crc:08x}")),
        Answer::Names(names) => out.print(format_args!("names {}", names.len())),
        Answer::Refused(refusal) => out.print(format_args!("refused {refusal:?}")),
        Answer::Csum { unit, kept, found } => {
            let unit = unit.number();
            out.print(format_args!("Csum unit={unit} kept={kept:08x} found={found:08x}"));
        }
        _ => out.print("no answer of a read"),
    }
}

/// Shows the entry of a read, and how many commits were acknowledged then.
fn print_entry(kernel: &Kernel<MemoryDevice>, place: u32, out: &mut Text) {
    match kernel.entries().get(place as usize) {
        Some(entry) if entry.client == 3 && entry.line == 7 => {
            out.print(format_args!("entry {place} "));
            print_answer(&entry.answer, out);
            out.println(format_args!(" acks={}", entry.acks));
        }
        _ => out.println("no such entry"),
    }
}

fn print_unanswered(why: &Unanswered, out: &mut Text) {
    match why {
        Unanswered::Down { ticket, back: _ } => out.println(format_args!(
            "down by {}",
            ticket.place
        )),
        Unanswered::BookFull(_) => out.println("the book is full"),
        Unanswered::DeviceRead(_) => out.println("the device failed"),
        Unanswered::Memory(_) => out.println("out of memory"),
    }
}

/// Asks for a read, as client 3 at line 7.
pub fn answered(
    alloc: Global,
    kernel: &mut Kernel<MemoryDevice>,
    read: Read,
) -> Result<u32, Unanswered> {
    kernel.ask(alloc, 3, 7, read)
}

/// Follows `ask COLL READ`, from its second word on.
pub fn ask(
    alloc: Global,
    kernel: &mut Kernel<MemoryDevice>,
    words: Words<'_>,
    out: &mut Text,
) -> Result<(), CaseError> {
    let read = question(alloc, words)?;
    match answered(alloc, kernel, read) {
        Ok(place) => print_entry(kernel, place, out),
        Err(why) => {
            print_unanswered(&why, out);
            drop(why);
        }
    }
    Ok(())
}

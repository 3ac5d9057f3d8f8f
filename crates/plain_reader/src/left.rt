//! What mounts leave: a device and the book of what was done; and what the plain reader finds in images of the device.

use crate::history::Told;
use crate::image::Found;
use crate::object::Object;
use crate::spelling::NAMES;
use crate::values::value_place;
use block_device::{MemoryDevice, Tear};
use byte_maps::Bytes;
use case_text::{CaseError, Text, number};
use crc32c_csum::crc32c;
use object_model::Book;
use std::alloc::Global;

/// The collections that are looked at.
pub const COLLS: [&str; 4] = ["1.0_head", "2.0_head", "3.0_head", "4.0_head"];

/// What a mount left.
#[derive(Drop)]
pub struct Left {
    pub dev: MemoryDevice,
    pub book: Book,
    /// The transactions that it accepted, by their places in the book.
    pub told: Vec<Told>,
}

impl Left {
    /// What a crash behind so many events leaves, torn in this way.
    pub fn image(&self, cut: u64, tear: Tear) -> Result<Vec<u8>, CaseError> {
        if self.dev.events() < cut {
            return Err(CaseError::Line("the log is shorter"));
        }
        self.dev.image(cut, tear).map_err(CaseError::from)
    }

    /// The place of a cut: a number of events, or `end`.
    pub fn cut_of(&self, word: &str) -> Result<u64, CaseError> {
        cut_of(&self.dev, word)
    }

    /// What the plain reader finds behind a cut.
    pub fn dumped(&self, alloc: Global, cut: u64, tear: Tear) -> Result<Vec<u8>, CaseError> {
        match self.image(cut, tear) {
            Ok(image) => found_text(alloc, &image),
            Err(wrong) => Err(wrong),
        }
    }
}

/// What a crash of a device behind so many events leaves, torn in this way; nothing where the log is shorter, or memory runs out.
pub fn image_at(alloc: Global, dev: &MemoryDevice, cut: u64, tear: Tear) -> Vec<u8> {
    if dev.events() < cut {
        return Vec::new(alloc);
    }
    dev.image(cut, tear).unwrap_or(Vec::new(alloc))
}

/// The place of a cut of a device's log: a number of events, or `end`.
pub fn cut_of(dev: &MemoryDevice, word: &str) -> Result<u64, CaseError> {
    if word == "end" {
        Ok(dev.events())
    } else {
        number(word)
    }
}

/// Shows bytes by their digits, `-` for none.
fn print_digits(bytes: &[u8], out: &mut Text) {
    if bytes.is_empty() {
        out.print(format_args!("-"));
    }
    for byte in bytes {
        out.print(format_args!("{byte:02x}"));
    }
}

/// Shows a value behind its word, and its name, if it has one.
fn print_value(word: &str, name: &[u8], value: &[u8], out: &mut Text) {
    out.print(format_args!("{word} "));
    if let Ok(name) = str::from_utf8(name) {
        if !name.is_empty() {
            out.print(format_args!("{name} "));
        }
    }
    print_digits(value, out);
    out.println("");
}

/// Shows the values of an object.
fn print_values(rows: &[(Bytes, Bytes)], coll: &str, name: &str, out: &mut Text) {
    for row in rows {
        let value = row.1.as_slice();
        match value_place(row.0.as_slice(), coll.as_bytes(), name.as_bytes()) {
            Some((b'A', name)) => print_value("attr", name, value, out),
            Some((b'M', [b'-'])) => print_value("header", b"", value, out),
            Some((b'M', [b'.', key @ ..])) => print_value("omap", key, value, out),
            Some(_) => out.println("no value"),
            None => {}
        }
    }
}

/// Shows an object that was found.
fn print_object(object: &Object, name: &str, out: &mut Text) {
    if object.is_whole {
        let size = object.bytes.len();
        let sum = crc32c(&object.bytes);
        out.println(format_args!("object {name} size {size} crc {sum:08x}"));
    } else {
        out.println(format_args!("object {name} damaged"));
    }
}

/// Shows the object of a name that was found, if there is one, and its values.
fn print_name(found: &Found, image: &[u8], coll: &str, name: &str, out: &mut Text) {
    if let Some(object) = found.object(image, coll.as_bytes(), name.as_bytes()) {
        print_object(&object, name, out);
        print_values(found.rows(), coll, name, out);
    }
}

/// Shows a collection that was found.
fn print_collection(found: &Found, image: &[u8], coll: &str, out: &mut Text) {
    if found.has_collection(coll.as_bytes()) {
        out.println(format_args!("coll {coll}"));
    }
    for name in &NAMES {
        print_name(found, image, coll, name, out);
    }
}

/// Shows all collections that were found in an image.
fn print_found(found: &Found, image: &[u8], out: &mut Text) {
    for coll in &COLLS {
        print_collection(found, image, coll, out);
    }
    out.println("end");
}

/// All that is found in an image, as text.
pub fn found_text(alloc: Global, image: &[u8]) -> Result<Vec<u8>, CaseError> {
    let mut out = Text::new(alloc);
    match Found::read(alloc, image) {
        Some(found) => print_found(&found, image, &mut out),
        None => out.println("no store"),
    }
    out.finish().map(String::into_bytes)
}

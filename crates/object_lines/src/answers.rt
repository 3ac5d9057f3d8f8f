//! How answers are shown.

use byte_maps::Bytes;
use case_text::{Text, print_bytes};
use object_model::Answer;

fn print_names(names: &[Bytes], out: &mut Text) {
    out.print("names");
    for name in names {
        let name = str::from_utf8(name.as_slice()).unwrap_or("?");
        out.print(format_args!(" {name}"));
    }
}

/// Shows an answer, in a line.
pub fn print_answer(answer: &Answer, out: &mut Text) {
    match answer {
        Answer::Accepted => out.print("ok"),
        Answer::Refused(refusal) => out.print(format_args!("{refusal:?}")),
        Answer::Bytes(bytes) => {
            out.print("data");
            print_bytes(out, bytes.as_slice());
        }
        Answer::Size(size) => out.print(format_args!("size {size}")),
        Answer::Sum { size, crc } => out.print(format_args!("sum {size} {crc:08x}")),
        Answer::Names(names) => print_names(names.as_slice(), out),
        Answer::NoSpace { .. } | Answer::MetaFull { .. } | Answer::Csum { .. } => {
            out.print("an answer of a device");
        }
    }
    out.print("\n");
}

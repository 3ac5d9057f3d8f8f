//! The text of `dump` on its way to a sink, object by object.
ghost use Rattle.std.specs.Prelude.{◌≡◌, [], ◌∷◌, List, true, false};
ghost use Rattle.read_facts.specs.declared.view.CollView.{CollView};
ghost use Rattle.run_texts.specs.Status.{number};
ghost use Rattle.run_texts.specs.Printed.{Output, output, FailedToPrint};
ghost use Rattle.run_texts.specs.DumpTexts.{object_lines, coll_lines, is_bad, dump_text};
ghost use Rattle.run_texts.specs.Dumping.{nothing_dumped, AddsLines, AddsWalk};
ghost use Rattle.run_texts.specs.Reports.{ReportsDump};

use crate::dump_texts::{is_bad, push_coll, push_last, push_object};
use crate::printer::Printer;
use crate::reports::{print_rest, run_status};
use crate::{Status, WorkEnd};
use end_points::Sink;
use read_facts::ObjectView;
use std::marker::Model;
use unit_fields::CollName;

/// The text of a run of `dump`, to which each collection and each object is added once a walk has come to it. Nothing is kept of
/// them but the last bytes of the text, and whether some object has a bad unit.
#[derive(Drop)]
pub struct DumpPrinter {
    text: Printer,
    bad: bool,
}

impl Model for DumpPrinter {
    ghost use Rattle.run_texts.specs.Dumping.{DumpSoFar};

    ghost Value = { DumpSoFar };

    ghost view = { λ p. record { text = p.text; bad = p.bad } };
}

impl DumpPrinter {
    /// With no line.
    pub fn new() -> DumpPrinter
        ensures { result ≡ nothing_dumped }
    {
        DumpPrinter {
            text: Printer::new(),
            bad: false,
        }
    }

    /// Adds the line of a collection.
    pub fn push_coll<K: Sink>(&mut self, out: &mut K, coll: &CollName)
        ensures { AddsLines (coll_lines (record { coll = coll.now; objects = [] })) false self.old self.new
            (output (K.written out.old) (K.faults out.old)) (output (K.written out.new) (K.faults out.new)) }
    {
        push_coll(&mut self.text, out, coll);
    }

    /// Adds the lines of an object: its own, and those of its values.
    pub fn push_object<K: Sink>(&mut self, out: &mut K, view: &ObjectView)
        ensures { AddsLines (object_lines view.now) (is_bad view.now.sum) self.old self.new
            (output (K.written out.old) (K.faults out.old)) (output (K.written out.new) (K.faults out.new)) }
    {
        push_object(&mut self.text, out, view);
        self.bad |= is_bad(&view.sum);
    }

    /// Whether the sink has failed, so that nothing more is printed.
    pub fn has_failed(&self) -> bool
        ensures { result ≡ self.now.text.failed }
    {
        self.text.has_failed()
    }

    /// Adds the last lines of a run that ended so, prints what still waits, and says how the run has ended.
    pub fn report<K: Sink>(self, end: &WorkEnd, out: &mut K) -> Status
        ensures printed { (start : Output) (colls : List CollView) →
            AddsWalk colls nothing_dumped self start (output (K.written out.old) (K.faults out.old)) →
            ReportsDump colls end.now (number result) start (output (K.written out.new) (K.faults out.new)) }
        ensures failed { self.text.failed ≡ true → (start : Output) (colls : List CollView) →
            AddsWalk colls nothing_dumped self start (output (K.written out.old) (K.faults out.old)) →
            FailedToPrint (dump_text colls end.now) (number result) start (output (K.written out.new) (K.faults out.new)) }
    {
        if self.has_failed() {
            return Status::SinkFault;
        }
        let mut text = self.text;
        push_last(&mut text, out, self.bad, end);
        print_rest(text, out, run_status(self.bad, end))
    }
}

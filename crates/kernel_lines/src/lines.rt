//! The lines of a case, and what they work on.

use crate::mounted::{KernelCall, Mounted};
use case_text::{CaseError, Follow, Setup, Text, Words, kind_of};
use plain_reader::{Left, Past};
use std::alloc::Global;

/// The kinds of lines that are shown.
#[derive(Clone, Copy)]
pub enum LineKind {
    /// `make NAME HALF`: a store on a device.
    Make,
    /// `mount NAME`
    Mount,
    /// `unmount NAME`: keeps the device under the name.
    Unmount,
    /// `see NAME AT COUNT`: bytes of a device.
    See,
    /// `cuts` and `cuts BY`: looks at each cut of the log of the last mount.
    Cuts,
    /// `dump CUT TEAR`: what the plain reader finds in the image of a crash.
    Dump,
    /// `dumps`: what it finds in all of them.
    Dumps,
    /// `lists NAME SEED LEAST`: lists of calls that are drawn, and each cut of each.
    Lists,
    /// What the store is called for that is mounted.
    Call(KernelCall),
}

/// The first words of these lines.
static LINE_KINDS: [(&str, LineKind); 20] = [
    ("make", LineKind::Make),
    ("mount", LineKind::Mount),
    ("unmount", LineKind::Unmount),
    ("see", LineKind::See),
    ("cuts", LineKind::Cuts),
    ("dump", LineKind::Dump),
    ("dumps", LineKind::Dumps),
    ("lists", LineKind::Lists),
    ("submit", LineKind::Call(KernelCall::Submit)),
    ("ask", LineKind::Call(KernelCall::Ask)),
    ("step", LineKind::Call(KernelCall::Step)),
    ("drain", LineKind::Call(KernelCall::Drain)),
    ("settle", LineKind::Call(KernelCall::Settle)),
    ("commits", LineKind::Call(KernelCall::Commits)),
    ("crowd", LineKind::Call(KernelCall::Crowd)),
    ("waiting", LineKind::Call(KernelCall::Waiting)),
    ("ready", LineKind::Call(KernelCall::Ready)),
    ("state", LineKind::Call(KernelCall::State)),
    ("acked", LineKind::Call(KernelCall::Acked)),
    ("walk", LineKind::Call(KernelCall::Walk)),
];

/// What is set up, the store that is mounted, if one is, and what the mounts before left.
#[derive(Drop)]
pub struct KernelLines {
    pub alloc: Global,
    pub setup: Setup,
    pub mounted: Option<Mounted>,
    /// What the last mount left.
    pub left: Option<Left>,
    /// The runs of the mounts before that one.
    pub history: Vec<Past>,
}

impl KernelLines {
    fn call(
        &mut self,
        call: KernelCall,
        words: Words<'_>,
        out: &mut Text,
    ) -> Result<(), CaseError> {
        match &mut self.mounted {
            Some(mounted) => mounted.call(call, words, out),
            None => Err(CaseError::Line("nothing is mounted")),
        }
    }

    fn act(&mut self, kind: LineKind, words: Words<'_>, out: &mut Text) -> Result<(), CaseError> {
        match kind {
            LineKind::Make => self.make(words, out),
            LineKind::Mount => self.mount(words, out),
            LineKind::Unmount => self.unmount(words, out),
            LineKind::See => self.see(words, out),
            LineKind::Cuts => self.cuts(words, out),
            LineKind::Dump => self.dump(words, out),
            LineKind::Dumps => self.dumps(words, out),
            LineKind::Lists => self.lists(words, out),
            LineKind::Call(call) => self.call(call, words, out),
        }
    }
}

impl Follow for KernelLines {
    /// A case with nothing set up, whose devices answer at once.
    fn begin(alloc: Global) -> Result<KernelLines, CaseError> {
        let mut setup = Setup::new(alloc)?;
        setup.lags = Vec::new(alloc);
        Ok(KernelLines {
            alloc,
            setup,
            mounted: None,
            left: None,
            history: Vec::new(alloc),
        })
    }

    /// Follows a line of a case, and shows it and what it comes to. A line that sets something up shows nothing.
    fn follow(&mut self, line: &str, out: &mut Text) -> Result<(), CaseError> {
        if self.setup.follow(line)? {
            return Ok(());
        }
        let Some((kind, words)) = kind_of(&LINE_KINDS, line) else {
            return Err(CaseError::Line("no such line"));
        };
        out.println(line);
        self.act(kind, words, out)
    }
}

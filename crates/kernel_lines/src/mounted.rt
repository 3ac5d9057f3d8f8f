//! A store that is mounted, and what it is called for.

use crate::asking::ask;
use crate::crowding::{crowd, wait_beside};
use crate::stepping::{drain, print_acked, print_commits, print_ready, print_state, settle, step};
use crate::walking::walk;
use block_device::MemoryDevice;
use case_text::{CaseError, Text, Words};
use mount_replay::unmount;
use plain_reader::{Left, Told};
use std::alloc::Global;
use store_kernel::Kernel;

/// What a line calls the kernel for.
#[derive(Clone, Copy)]
pub enum KernelCall {
    /// `submit COLL OPERATION; OPERATION ..`: shows the transaction's place in the book.
    Submit,
    /// `ask COLL READ`
    Ask,
    /// `step NAME ..`: does each step that is ready when its turn comes.
    Step,
    /// `drain`: does the first ready step until none is.
    Drain,
    /// `settle`, `settle first STEP`, `settle last STEP`: the same, with one step before all others or behind them.
    Settle,
    /// `ready`: shows the ready steps.
    Ready,
    /// `state`: shows the kernel's state.
    State,
    /// `acked PLACE`: shows whether a transaction is acknowledged.
    Acked,
    /// `commits`: shows the commits.
    Commits,
    /// `crowd COLL`: submits objects until one is refused.
    Crowd,
    /// `waiting COUNT TURNS`: commits so many pages while so many others wait.
    Waiting,
    /// `walk`: shows all collections and objects.
    Walk,
}

/// A store that is mounted, and unmounted at the end.
pub struct Mounted {
    pub alloc: Global,
    pub kernel: Kernel<MemoryDevice>,
    /// The transactions that it accepted, by their places in the book.
    pub told: Vec<Told>,
}

impl Mounted {
    /// A store that was mounted just now.
    pub fn new(alloc: Global, kernel: Kernel<MemoryDevice>) -> Mounted {
        Mounted {
            alloc,
            kernel,
            told: Vec::new(alloc),
        }
    }

    /// Unmounts it.
    pub fn close(self) -> Left {
        let Mounted {
            alloc,
            kernel,
            told,
        } = self;
        let (dev, book) = unmount(alloc, kernel);
        Left { dev, book, told }
    }

    /// Follows a line that calls the kernel, from its second word on.
    pub fn call(
        &mut self,
        call: KernelCall,
        words: Words<'_>,
        out: &mut Text,
    ) -> Result<(), CaseError> {
        match call {
            KernelCall::Submit => self.submit(words, out),
            KernelCall::Ask => ask(self.alloc, &mut self.kernel, words, out),
            KernelCall::Step => step(self.alloc, &mut self.kernel, words, out),
            KernelCall::Drain => drain(self.alloc, &mut self.kernel, out),
            KernelCall::Settle => settle(self.alloc, &mut self.kernel, words),
            KernelCall::Crowd => crowd(self, words, out),
            KernelCall::Waiting => wait_beside(self, words, out),
            KernelCall::Commits => {
                print_commits(&self.kernel, out);
                Ok(())
            }
            KernelCall::Ready => {
                print_ready(&self.kernel, out);
                Ok(())
            }
            KernelCall::State => {
                print_state(&self.kernel, out);
                Ok(())
            }
            KernelCall::Acked => print_acked(&self.kernel, words, out),
            KernelCall::Walk => walk(self.alloc, &mut self.kernel, out),
        }
    }
}

impl Drop for Mounted {
    fn drop(self) {
        let Mounted {
            alloc,
            kernel,
            told,
        } = self;
        drop(told);
        let (_device, _book) = unmount(alloc, kernel);
    }
}

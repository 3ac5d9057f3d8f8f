//! Walks over all collections and objects. They change nothing, and make no entry of the book.
ghost use Rattle.std.specs.Prelude.{◌≡◌, ◌≤◌, IfOk, IfErr, IsErrOf, MatchOption};
ghost use Rattle.std.specs.Option.{option_copied};
ghost use Rattle.meta_log.specs.Prelude.{width_of};
ghost use Rattle.block_device.specs.Prelude.{Rose};
ghost use Rattle.read_facts.specs.Prelude.{IsCollection, IsObject, IsNextOf, IsPast, IsHeldAt};
ghost use Rattle.object_reader.specs.Readable.{IsNextView};
ghost use Rattle.store_steps.specs.Prelude.{memory_of};
ghost use Rattle.store_kernel.specs.Reading.{IsDownFail};

use super::Kernel;
use crate::unanswered::WalkFail;
use block_device::Device;
use object_reader::{ReadFail, next_object};
use object_rows::next_collection;
use read_facts::ObjectView;
use std::alloc::Global;
use unit_fields::{CollName, Name};

impl<D: Device> Kernel<D> {
    /// The collection that comes next behind another one in byte order, or the first one, after all transactions that were accepted. None:
    /// there is none behind it. It makes no entry of the book, and reads nothing of the device.
    pub fn next_collection(
        &self,
        alloc: Global,
        after: Option<&CollName>,
    ) -> Result<Option<CollName>, WalkFail>
        ensures ok { IfOk result (λ found. MatchOption found (IsPast (IsCollection self.now.state.submitted) (option_copied after.entry))
            (IsNextOf (IsCollection self.now.state.submitted) (option_copied after.entry))) }
        ensures fail { IfErr result (λ why. IsDownFail why self.now.state) }
        ensures unread { ¬ IsErrOf result WalkFail.DeviceRead }
    {
        if let Some(ticket) = self.down {
            return Err(WalkFail::Down { ticket });
        }
        match next_collection(alloc, &self.submitted, after) {
            Ok(found) => Ok(found),
            Err(_) => Err(WalkFail::Memory),
        }
    }

    /// The object of a collection that comes next behind another one in byte order, or the first one, with its size and the checksum of its
    /// bytes, or its first bad unit. None: there is none behind it, or no such collection. It makes no entry of the book.
    pub fn next_object(
        &mut self,
        alloc: Global,
        coll: &CollName,
        after: Option<&Name>,
    ) -> Result<Option<ObjectView>, WalkFail>
        ensures ok { IfOk result (λ found. MatchOption found (IsPast (IsObject self.old.state.submitted coll.now) (option_copied after.entry))
            (IsNextView (width_of self.old.state.log.sup) (memory_of self.old.state) (IsHeldAt (D.disk self.old.device)) self.old.state.submitted
            coll.now (option_copied after.entry))) }
        ensures fail { IfErr result (λ why. IsDownFail why self.old.state) }
        ensures same { self.new.state ≡ self.old.state }
        ensures disk { D.disk self.new.device ≡ D.disk self.old.device }
        ensures later { D.faults self.old.device ≤ D.faults self.new.device }
        ensures cause { IsErrOf result WalkFail.DeviceRead → Rose (D.faults self.old.device) (D.faults self.new.device) }
    {
        if let Some(ticket) = self.down {
            return Err(WalkFail::Down { ticket });
        }
        let width = self.meta.sup().width();
        match next_object(
            alloc,
            &mut self.device,
            &self.buffers,
            width,
            &self.submitted,
            coll,
            after,
        ) {
            Ok(found) => Ok(found),
            Err(ReadFail::Memory) => Err(WalkFail::Memory),
            Err(ReadFail::Fault) => Err(WalkFail::DeviceRead),
        }
    }
}

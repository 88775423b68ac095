//! What nodes are kept with, apart from the flash.
ghost use Rattle.std.specs.Prelude.{◌≡◌, [], IfOk, IfErr};
ghost use Rattle.std.specs.FinSet as set;
ghost use Rattle.block_ring.specs.Ring.{IsDataBlock};
ghost use Rattle.flash_model.specs.Device.{Device};
ghost use Rattle.flash_model.specs.Geometry.{IsGeometry};
ghost use Rattle.node_store.specs.NodeCache.{with_blocks};
ghost use Rattle.node_store.specs.Fitting.{Fits};

use crate::node_cache::NodeCache;
use bad_blocks::BadBlocks;
use block_ring::{Marks, Ring};
use flash_model::Geometry;
use fs_types::Fault;
use std::alloc::Global;

/// What nodes are kept with, apart from the flash: which blocks are bad and which are used, room for a
/// page, and the nodes that were used last.
#[derive(Drop)]
pub struct Storage {
    /// The bad blocks.
    pub bad: BadBlocks,
    /// The used blocks, for as many as the flash has.
    pub ring: Ring,
    /// Room for the bytes of a page: as long as a page.
    pub page: Vec<u8>,
    /// The nodes that were read or written last, as the flash holds them.
    pub cache: NodeCache,
    /// The block of which a part was read last, which is read whole next; 0 where there is none.
    pub partly: u32,
}

impl Storage {
    /// What nodes are kept with on a flash of these sizes of which none was read: these blocks are bad,
    /// none is used, and `last` counts as the last one taken. No block is listed in the cache.
    pub fn unused(
        alloc: Global,
        geometry: Geometry,
        bad: BadBlocks,
        last: u32,
        cache: NodeCache,
    ) -> Result<Storage, Fault>
        requires lawful { IsGeometry geometry }
        requires last { IsDataBlock geometry.blocks last }
        requires empty { cache.entries ≡ [] }
        ensures bad { IfOk result (λ storage. storage.bad ≡ bad) }
        ensures ring { IfOk result (λ storage. storage.ring ≡ record {
          blocks = geometry.blocks;
          used = set.empty;
          note = set.empty;
          last = last;
          takes = 0;
        }) }
        ensures cache { IfOk result (λ storage. storage.cache ≡ cache) }
        ensures partly { IfOk result (λ storage. storage.partly ≡ 0) }
        ensures fits { IfOk result (λ storage. (device : Device) → device.geometry ≡ geometry
            → Fits device storage) }
        ensures err { IfErr result (λ fault. fault ≡ Fault.NoMemory) }
    {
        Ok(Storage {
            bad,
            ring: Ring::new(alloc, geometry.blocks, last)?,
            page: vec![in alloc; 0; geometry.page as usize]?,
            cache,
            partly: 0,
        })
    }

    /// Makes exactly those blocks used that are marked, or that became used since the ring was watched
    /// last, and takes the others out of the cache.
    pub fn install(&mut self, marks: Marks)
        requires { marks.blocks ≡ self.old.ring.blocks }
        ensures { self.new ≡ record self.old {
          ring = record self.old.ring { used = set.union marks.members self.old.ring.note };
          cache = record self.old.cache {
            entries = with_blocks (set.contains (set.union marks.members self.old.ring.note)) self.old.cache.entries;
          };
        } }
    {
        self.ring.install(marks);
        self.cache.forget_unused(&self.ring);
    }
}

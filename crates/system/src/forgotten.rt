//! Forgetting the nodes that are kept in memory.
ghost use Rattle.std.specs.Prelude.{◌≡◌, []};
ghost use Rattle.flash_model.specs.Device.{Device};
ghost use Rattle.system.specs.Systems.{IsSystem};

use crate::systems::System;

impl System {
    /// Forgets the nodes that are kept in memory: each is read from the flash again when it is wanted.
    pub fn forget_nodes(&mut self)
        ensures same { self.new ≡ record self.old {
          state = record self.old.state {
            storage = record self.old.state.storage {
              cache = record self.old.state.storage.cache { entries = [] };
            };
          };
        } }
        ensures system { (device : Device) → IsSystem device self.old → IsSystem device self.new }
    {
        self.state.storage.cache.clear();
    }
}

//! A part in memory may have the dense layout.
use crate::dense_nor::DenseNor;
use flash_model::DevFault;
use nor_part::{MemoryNor, Nor};

impl DenseNor for MemoryNor {
    fn program_dense(&mut self, page: usize, bytes: &[u8]) -> Result<(), DevFault> {
        self.program(page, bytes)
    }

    fn erase_dense(&mut self, sector: usize) -> Result<(), DevFault> {
        self.erase(sector)
    }
}

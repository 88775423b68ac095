//! A flash whose driver is at the other end of two streams.
//!
//! The driver is asked for each program and erase by an order, and answers it by one byte. An order is `p`,
//! the number of a page in four bytes, the lowest first, and the bytes of the whole page; or `e` and the
//! number of a block in four bytes. The answer 1 says that it is done, 2 that it failed. Any other byte,
//! and a stream that ended or failed, says that power went. docs/serve.md has the rest.
#![tactic(auto)]

mod driver;
mod laws_of_orders;
mod start;
mod told_flash;

pub use laws_of_orders::order_laws;
pub use start::{LONGEST_IMAGE, StartFault};
pub use told_flash::ToldFlash;

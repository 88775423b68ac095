//! A driver at the other end of two streams.
ghost use Rattle.std.specs.Prelude.{IfSome, IfNone, OnOk, OnErr, [], ◌∷◌};
ghost use Rattle.std.specs.Io.KnownBytes.{Appends, Consumes, Keeps};
ghost use Rattle.remote_flash.specs.Orders.{order_of};
ghost use Rattle.remote_flash.specs.Streams.{AppendsPart};

use flash_model::DevFault;
use script::{read_byte, write_out};
use std::io;
use std::io::{Read, Write};

/// What a driver answers where an order is done.
const DONE: u8 = 1;

/// What a driver answers where an order failed, and power is on.
const FAILED: u8 = 2;

/// A driver that reads orders from one stream and answers them on another. From the first order that
/// it answers neither as done nor as failed it has no power, and is asked nothing more.
#[derive(Drop)]
pub(crate) struct Driver<R, W> {
    answers: R,
    orders: W,
    is_lost: bool,
}

impl<R, W> Driver<R, W> {
    ghost use Rattle.std.specs.Prelude.{◌≡◌, false};
    ghost use Rattle.remote_flash.specs.Drivers.{driver_answers, driver_orders, driver_lost};

    pub(crate) fn new(answers: R, orders: W) -> Driver<R, W>
        ensures answers { driver_answers result ≡ answers }
        ensures orders { driver_orders result ≡ orders }
        ensures lost { driver_lost result ≡ false }
    {
        Driver {
            answers,
            orders,
            is_lost: false,
        }
    }

    pub(crate) fn is_lost(&self) -> bool
        ensures { result ≡ driver_lost self.now }
    {
        self.is_lost
    }
}

impl<R: Read, W: Write> Driver<R, W> {
    ghost use Rattle.std.specs.Prelude.{◌≡◌, IfSome, IfNone, Err, true, false};
    ghost use Rattle.remote_flash.specs.Orders.{order_of};
    ghost use Rattle.remote_flash.specs.Streams.{EndsBy, IsAnswered, IsUnanswered};
    ghost use Rattle.remote_flash.specs.Drivers.{driver_streams, driver_lost};

    /// Has an order carried out.
    pub(crate) fn carry_out(&mut self, kind: u8, number: u32, bytes: &[u8]) -> Result<(), DevFault>
        ensures on { driver_lost self.old ≡ false → EndsBy (driver_streams R.remaining W.contents self.old) (order_of kind number bytes.now) (driver_streams R.remaining W.contents self.new) result }
        ensures off { driver_lost self.old ≡ true → (driver_streams R.remaining W.contents self.new ≡ driver_streams R.remaining W.contents self.old) × (result ≡ Err DevFault.PowerCut) }
    {
        if self.is_lost {
            return Err(DevFault::PowerCut);
        }
        match self.ask(kind, number, bytes) {
            Some(DONE) => Ok(()),
            Some(FAILED) => Err(DevFault::Failed),
            _ => {
                self.is_lost = true;
                Err(DevFault::PowerCut)
            }
        }
    }

    /// Gives an order, and reads the byte that answers it. `None` where a stream ended or failed.
    fn ask(&mut self, kind: u8, number: u32, bytes: &[u8]) -> Option<u8>
        ensures some { IfSome result (λ byte. IsAnswered (driver_streams R.remaining W.contents self.old) (order_of kind number bytes.now) byte (driver_streams R.remaining W.contents self.new)) }
        ensures none { IfNone result (IsUnanswered (driver_streams R.remaining W.contents self.old) (order_of kind number bytes.now) (driver_streams R.remaining W.contents self.new)) }
        ensures lost { driver_lost self.new ≡ driver_lost self.old }
    {
        match give(&mut self.orders, kind, number, bytes) {
            Ok(()) => next_byte(&mut self.answers),
            Err(_) => None,
        }
    }
}

/// Gives an order. Where that fails, a beginning of it was given.
fn give<W: Write>(orders: &mut W, kind: u8, number: u32, bytes: &[u8]) -> io::Result<()>
    ensures ok { OnOk result (Appends (W.contents orders.old) (W.contents orders.new) (order_of kind number bytes.now)) }
    ensures err { OnErr result (AppendsPart (W.contents orders.old) (W.contents orders.new) (order_of kind number bytes.now)) }
{
    write_out(orders, &[kind])?;
    write_out(orders, &number.to_le_bytes())?;
    write_out(orders, bytes)?;
    orders.flush()
}

/// The next byte that a reader gives. `None` where it ended or failed; a signal alone is neither.
fn next_byte<R: Read>(reader: &mut R) -> Option<u8>
    ensures some { IfSome result (λ byte. Consumes (R.remaining reader.old) (R.remaining reader.new) (byte ∷ [])) }
    ensures none { IfNone result (Keeps (R.remaining reader.old) (R.remaining reader.new)) }
{
    match read_byte(reader) {
        Ok(byte) => byte,
        Err(_) => None,
    }
}

//! Whole buffers through ports.
ghost use Rattle.std.specs.Prelude.{◌≡◌, true, false, length, IsOk};
ghost use Rattle.std.specs.Result.{is_err};
ghost use Rattle.octet_ports.specs.Ports.{Gives, GivesWithin, EndsWithin, Takes, TakesFirst};

use crate::port::{PortFault, PortIn, PortOut};

/// Writes all octets.
pub fn write_octets<O: PortOut>(output: &mut O, octets: &[u8]) -> Result<(), PortFault>
    requires { (O.sink output.old).failed ≡ false }
    ensures ok { IsOk result → Takes octets.now (O.sink output.old) (O.sink output.new) }
    ensures fault { is_err result ≡ true → TakesFirst octets.now (O.sink output.old) (O.sink output.new) }
    ensures failed { (O.sink output.new).failed ≡ is_err result }
{
    let mut done = 0;
    while done < octets.len() {
        let count = output.put(&octets[done..])?;
        done += count;
    }
    Ok(())
}

/// Fills the buffer, or answers false where the input ends before.
pub fn read_octets<I: PortIn>(input: &mut I, buffer: &mut [u8]) -> Result<bool, PortFault>
    requires { (I.source input.old).failed ≡ false }
    ensures filled { result ≡ Ok true → Gives buffer.new (I.source input.old) (I.source input.new) }
    ensures short { result ≡ Ok false → EndsWithin (length buffer.old) (I.source input.old) (I.source input.new) }
    ensures few { GivesWithin (length buffer.old) (I.source input.old) (I.source input.new) }
    ensures failed { (I.source input.new).failed ≡ is_err result }
{
    let mut done = 0;
    while done < buffer.len() {
        let count = input.get(&mut buffer[done..])?;
        if count == 0 {
            return Ok(false);
        }
        done += count;
    }
    Ok(true)
}

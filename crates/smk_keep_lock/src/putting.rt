//! What is put on a sink.

ghost use Rattle.smk_world.specs.Devices.{HasPut};

use smk_world::{Failed, Sink};

/// Puts the text, and hands it on. `Failed`: the sink failed, and a front of the text was put.
pub fn write_out<O: Sink>(out: &mut O, text: &str) -> Result<(), Failed>
    ensures { HasPut (O.sunk out.old) (O.sunk out.new) text.now result }
{
    out.put(text.as_bytes())?;
    out.flush()
}

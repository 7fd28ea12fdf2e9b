ghost use Rattle.std.specs.Prelude.{◌≡◌, ◌++◌, IsErr, OnOk, OnErr};
ghost use Rattle.fb_bytes.specs.Bytes.{Bytes};
ghost use Rattle.fb_outside.specs.Contents.{IsFrontOf};
ghost use Rattle.fb_outside.specs.Faults.{Counts};

use crate::{Failed, Sink};

/// Writes all the bytes, in as many pieces as the sink takes them. It takes no memory.
pub fn write_all<K: Sink>(sink: &mut K, bytes: &[u8]) -> Result<(), Failed>
    ensures whole { OnOk result ((held : Bytes) → K.held sink.old ≡ Some held
        → K.held sink.new ≡ Some (held ++ bytes.now)) }
    ensures part { OnErr result ((held : Bytes) → K.held sink.old ≡ Some held → (front : Bytes)
        × (K.held sink.new ≡ Some (held ++ front)) × IsFrontOf bytes.now front) }
    ensures count { Counts (K.faults sink.old) (K.faults sink.new) (IsErr result) }
{
    let mut rest = bytes;
    'pieces: while !rest.is_empty() {
        let n = sink.write(rest)?;
        if n == 0 {
            return Err(Failed);
        }
        rest = &rest[n..];
    }
    Ok(())
}

//! Pushes all of some bytes, in as many pushes as the sink needs.
ghost use Rattle.tql_result.specs.Devices.{Pushes, held};

use crate::device::DeviceFault;
use crate::sink::Sink;

/// Pushes all bytes, in as many pushes as the sink needs. A push that takes none of the remaining bytes is a failure.
/// On failure, a prefix of the bytes has been pushed.
pub fn push_all<S: Sink>(sink: &mut S, bytes: &[u8]) -> Result<(), DeviceFault>
    ensures { Pushes bytes.now result
        (held S.written S.kept sink.old) (held S.written S.kept sink.new) (S.failures sink.old) (S.failures sink.new) }
{
    let mut rest = bytes;
    while !rest.is_empty() {
        let taken = sink.push(rest)?;
        if taken == 0 {
            return Err(DeviceFault);
        }
        rest = &rest[taken..];
    }
    Ok(())
}

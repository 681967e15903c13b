//! The bytes of a script.
ghost use Rattle.std.specs.Prelude.{◌≡◌, ◌≤◌, vec_len, IfOk, IfSome};

use crate::fault::ReadFault;
use std::alloc::Global;
use std::io::{ErrorKind, Read};

/// The most bytes that a script has.
pub const SCRIPT_LIMIT: usize = 1_048_576;

/// How many bytes are asked of the reader at once.
const CHUNK: usize = 8192;

/// All that the reader gives, which is at most `SCRIPT_LIMIT` bytes.
///
/// An interrupted reader is read on. One that fails, or gives more, is the fault `Io`.
pub fn read_script<R: Read>(alloc: Global, reader: &mut R) -> Result<Vec<u8>, ReadFault>
    ensures all { IfOk result (λ b. IfSome (R.remaining reader.old) (λ given. b.items ≡ given)) }
    ensures limit { IfOk result (λ bytes. vec_len bytes ≤ 1048576) }
{
    let mut bytes = Vec::new(alloc);
    let mut chunk = [0u8; CHUNK];
    for _ in 0..u64::MAX {
        match reader.read(&mut chunk) {
            Ok(0) => return Ok(bytes),
            Ok(count) => {
                if count > SCRIPT_LIMIT - bytes.len() {
                    return Err(ReadFault::Io);
                }
                bytes.extend_from_slice(&chunk[..count])?;
            }
            Err(error) => {
                if error.kind() != ErrorKind::Interrupted {
                    return Err(ReadFault::Io);
                }
            }
        }
    }
    Err(ReadFault::Io)
}

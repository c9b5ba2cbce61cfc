ghost use Rattle.std.specs.Prelude.{◌+◌, ◌<◌, ◌≤◌, length, MatchResult};
ghost use Rattle.uca_io.specs.Reader.{GivesAll};
ghost use Rattle.uca_io.specs.ReadWhole.{StopsAt};

use crate::reader::Reader;
use std::alloc::Global;

/// The most bytes that one call requests of a reader.
const CHUNK: usize = 65_536;

/// Why bytes were not read to their end.
#[derive(Clone, Copy)]
pub enum Stop {
    /// There are too many.
    TooLarge,
    /// The reader failed.
    Read,
    /// Memory for them was refused.
    OutOfMemory,
}

/// How many bytes to request where this many may still come: one more shows that there are too many.
fn asked_for(room: usize) -> usize
    ensures some { 0 < result }
    ensures most { result ≤ CHUNK }
    ensures few { result ≤ room + 1 }
{
    if room < CHUNK { room + 1 } else { CHUNK }
}

/// Reads bytes to their end, which are at most `limit`. It never requests more than the first byte past the limit, and makes at
/// most `limit` + 1 calls of a reader that counts its calls.
pub fn read_whole<R: Reader>(alloc: Global, reader: &mut R, limit: usize) -> Result<Vec<u8>, Stop>
    ensures reads { MatchResult result
        (λ v. GivesAll (R.state reader.old) (R.state reader.new) v.items × (length v.items ≤ limit))
        (λ stop. StopsAt limit stop (R.state reader.old) (R.state reader.new)) }
    ensures calls { R.calls reader.new ≤ R.calls reader.old + (limit + 1) }
{
    let mut bytes = Vec::new(alloc);
    let mut chunk = [0; CHUNK];
    loop {
        let room = limit - bytes.len();
        let piece = &mut chunk[..asked_for(room)];
        match reader.pull(piece) {
            Ok(0) => return Ok(bytes),
            Ok(n) => {
                if n > room {
                    return Err(Stop::TooLarge);
                }
                if bytes.extend_from_slice(&piece[..n]).is_err() {
                    return Err(Stop::OutOfMemory);
                }
            }
            Err(_) => return Err(Stop::Read),
        }
    }
}

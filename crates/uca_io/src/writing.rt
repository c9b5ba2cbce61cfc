ghost use Rattle.std.specs.Prelude.{◌≡◌, MatchResult};
ghost use Rattle.uca_io.specs.Writer.{WritesAll, WritesFront};

use crate::writer::{WriteCause, WriteFault, Writer};

fn stopped(at: usize, cause: WriteCause) -> WriteFault
    ensures { result ≡ record { written = at; cause = cause } }
{
    WriteFault {
        written: at as u128,
        cause,
    }
}

/// Writes all bytes, in as many calls as the writer needs. On a fault exactly the first `written` of them were written.
/// It does not flush, and does not try again after an error.
pub fn write_whole<W: Writer>(w: &mut W, bytes: &[u8]) -> Result<(), WriteFault>
    ensures { MatchResult result
        (λ _. WritesAll (W.state w.old) (W.state w.new) bytes.now)
        (λ f. WritesFront (W.state w.old) (W.state w.new) bytes.now f) }
{
    let mut at = 0;
    while at < bytes.len() {
        match w.put(&bytes[at..]) {
            Ok(0) => return Err(stopped(at, WriteCause::Zero)),
            Ok(n) => at += n,
            Err(_) => return Err(stopped(at, WriteCause::Failed)),
        }
    }
    Ok(())
}

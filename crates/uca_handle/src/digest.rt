ghost use Rattle.std.specs.Prelude.{◌≡◌, IfOk};
ghost use Rattle.uca_model.specs.CanonicalText.{canonical};
ghost use Rattle.uca_handle.specs.Calls.{FingerprintsBy};
ghost use Rattle.uca_handle.specs.Fingerprint.{settings_bytes, variable_number};

use crate::faults::FingerprintFault;
use sha2::{Digest, Sha256};
use std::alloc::{AllocError, Global};
use uca_allkeys::write_table;
use uca_table::Table;
use uca_weights::{Settings, Variable, Writing};
use unicode_normalization::UNICODE_VERSION;

/// The form of keys. It changes if the same weights ever make another sort key or packed key. Numbers 1 to 3 were those of longer
/// packed keys.
const KEY_FORM: u8 = 4;

fn variable_number(weighting: Variable) -> u8
    ensures { result ≡ variable_number weighting }
{
    match weighting {
        Variable::NonIgnorable => 0,
        Variable::Blanked => 1,
        Variable::Shifted => 2,
    }
}

/// The settings, the form of keys and the version of Unicode.
fn settings_bytes(s: Settings) -> [u8; 6]
    ensures { result ≡ settings_bytes s }
{
    let (major, minor, update) = UNICODE_VERSION;
    [
        KEY_FORM,
        s.levels(),
        variable_number(s.weighting),
        major,
        minor,
        update,
    ]
}

/// The canonical text of a table.
fn canonical_text(alloc: Global, t: &Table) -> Result<Vec<u8>, AllocError>
    ensures { IfOk result (λ text. text.items ≡ canonical t.now) }
{
    let mut writer = Writing::new(Vec::new(alloc));
    match write_table(&mut writer, t) {
        Ok(_) => Ok(writer.into_inner()),
        Err(_) => Err(AllocError),
    }
}

/// The digest of a table and settings.
pub(crate) fn digest_of(alloc: Global, t: &Table, s: Settings) -> Result<[u8; 32], FingerprintFault>
    ensures { FingerprintsBy t.now s result }
{
    let Ok(text) = canonical_text(alloc, t) else {
        return Err(FingerprintFault::OutOfMemory);
    };
    let mut hasher = Sha256::new();
    hasher.update(text.as_slice());
    hasher.update(settings_bytes(s).as_slice());
    Ok(hasher.finalize())
}

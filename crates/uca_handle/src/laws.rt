//! Laws of what a collator shows: the contracts of functions that do nothing.
ghost use Rattle.uca_handle.specs.FingerprintLaws.{EqualFingerprintsMeanEqualKeys};

/// Where the bytes that two fingerprints digest are equal, and neither table has further ideographs, the tables and the
/// settings are the same, and so are all sort keys and packed keys. That two fingerprints are equal only where those bytes
/// are is what SHA-256 is trusted for.
pub fn equal_fingerprints_mean_equal_keys()
    ensures { EqualFingerprintsMeanEqualKeys }
{}

ghost use Rattle.std.specs.Prelude.{◌≡◌};
ghost use Rattle.kv_scan.specs.Scans.{covers_stamp};

use kv_base::Bytes;

/// A version of a key that a batch overwrote, kept for a scan that isn't started yet.
#[derive(Debug, Drop)]
pub(crate) struct Held {
    /// Its key.
    pub key: Bytes,
    /// Its stamp.
    pub since: u64,
    /// The stamp of the change that overwrote it.
    pub until: u64,
    /// Its value.
    pub value: Bytes,
}

// Whether the version was the key's at the stamp.
pub(crate) fn covers_stamp(version: &Held, stamp: u64) -> bool
    ensures { result ≡ covers_stamp version.now stamp }
{
    version.since <= stamp && stamp < version.until
}

ghost use Rattle.std.specs.Prelude.{◌≡◌, ◌≤◌};
ghost use Rattle.kv_base.specs.Partition.{owner_of};

const OFFSET_BASIS: u64 = 14695981039346656037;

const PRIME: u64 = 1099511628211;

/// The worker, of 1 to 16, that owns the key: its 64-bit FNV-1a hash modulo their number.
pub fn owner(key: &[u8], workers: u32) -> u32
    requires some { 1 ≤ workers }
    requires limit { workers ≤ 16 }
    ensures value { result ≡ owner_of key.now workers }
{
    let mut hash = OFFSET_BASIS;
    for byte in key {
        hash = (hash ^ u64::from(*byte)).wrapping_mul(PRIME);
    }
    (hash % u64::from(workers)) as u32
}

ghost use Rattle.std.specs.Prelude.{◌≡◌, ◌&&◌, nat_le};
ghost use Rattle.std.specs.Str.{bytes_eq};
ghost use Rattle.std.specs.Option.{option_copied, option_map, option_and_then};
ghost use Rattle.kv_model.specs.History.{latest};
ghost use Rattle.kv_model.specs.Oracle.{history_of, preferred, write_of};

use crate::write::Recorded;

/// The key's write with the greatest stamp not above the given one.
pub fn find_latest<'a>(writes: &'a [Recorded], stamp: u64, key: &[u8]) -> Option<&'a Recorded>
    ensures { option_map write_of (option_copied result) ≡ latest (history_of writes.now) stamp
        key.now }
{
    let mut best: Option<&Recorded> = None;
    for write in writes {
        if counts(write, stamp, key) {
            best = Some(the_later(best, write));
        }
    }
    best
}

/// Whether the write is the key's and not above the stamp.
fn counts(write: &Recorded, stamp: u64, key: &[u8]) -> bool
    ensures { result ≡ (bytes_eq write.now.key key.now && nat_le write.now.stamp stamp) }
{
    write.key.as_slice() == key && write.stamp <= stamp
}

/// The one with the greater stamp, and of equal stamps the first.
fn the_later<'a>(best: Option<&'a Recorded>, write: &'a Recorded) -> &'a Recorded
    ensures { write_of result.now ≡ preferred (option_map write_of (option_copied best.entry))
        (write_of write.now) }
{
    match best {
        Some(best) if best.stamp >= write.stamp => best,
        _ => write,
    }
}

/// The value of the write, where there is one.
pub fn value_of<'a>(write: Option<&'a Recorded>) -> Option<&'a [u8]>
    ensures { option_copied result ≡ option_and_then (λ write. write.value)
        (option_map write_of (option_copied write.entry)) }
{
    match write {
        None => None,
        Some(write) => match &write.value {
            None => None,
            Some(value) => Some(value.as_slice()),
        },
    }
}

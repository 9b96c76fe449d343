ghost use Rattle.std.specs.Prelude.{◌≡◌, ◌+◌, ◌^◌, ◌<◌, ◌≤◌};
ghost use Rattle.kv_model.specs.Layout.{slot_size};
ghost use Rattle.kv_model.specs.Reading.{page_of, offset_of};

use kv_base::Place;

/// The page where the slot begins, in the file of its class, and the offset in that page. The class
/// is 1 to 11 and the slot below 2^24.
pub fn spot(place: Place) -> (u32, u32)
    requires class { (1 ≤ place.class) × (place.class ≤ 11) }
    requires slot { place.slot < 2 ^ 24 }
    ensures page { result.0 ≡ page_of place.class place.slot }
    ensures offset { result.1 ≡ offset_of place.class place.slot }

    // a small slot ends in its page, a large one begins with its page
    ensures small { place.class ≤ 7 → result.1 + slot_size place.class ≤ 4096 }
    ensures large { 8 ≤ place.class → result.1 ≡ 0 }

    // all pages of the slot have numbers below 2^28
    ensures range { result.0 < 2 ^ 28 }
{
    let slot = place.slot;
    match place.class {
        1 => (slot / 64, slot % 64 * 64),
        2 => (slot / 32, slot % 32 * 128),
        3 => (slot / 16, slot % 16 * 256),
        4 => (slot / 8, slot % 8 * 512),
        5 => (slot / 4, slot % 4 * 1_024),
        6 => (slot / 2, slot % 2 * 2_048),
        7 => (slot, 0),
        8 => (slot * 2, 0),
        9 => (slot * 4, 0),
        10 => (slot * 8, 0),
        _ => (slot * 16, 0),
    }
}

ghost use Rattle.std.specs.Prelude.{◌≡◌, ◌+◌, ◌-◌, ◌<◌, ◌≤◌, ◌↔◌, ◌⊎◌, IfSome, IsNone, IsSome};
ghost use Rattle.kv_model.specs.Layout.{all_classes, class_of, room_of, slot_size};

const LONGEST_KEY: usize = 255;

/// The least class, 1 to 11, that holds an item of these lengths. `None` exactly where the key's
/// length isn't 1 to 255 or key and value have more than 65,400 bytes together.
pub fn class_of(key_len: usize, value_len: usize) -> Option<u8>
    ensures value { result ≡ class_of all_classes key_len value_len }
    ensures some { IsSome result ↔ ((1 ≤ key_len) × (key_len ≤ 255) × (key_len + value_len ≤ 65400)) }
    ensures none { IsNone result ↔ ((key_len < 1) ⊎ (255 < key_len) ⊎ (65400 < key_len + value_len)) }
    ensures range { IfSome result (λ class. (1 ≤ class) × (class ≤ 11)) }
{
    if key_len < 1 || key_len > LONGEST_KEY {
        return None;
    }
    match key_len.saturating_add(value_len) {
        0..=48 => Some(1),
        49..=112 => Some(2),
        113..=240 => Some(3),
        241..=496 => Some(4),
        497..=1_008 => Some(5),
        1_009..=2_032 => Some(6),
        2_033..=4_080 => Some(7),
        4_081..=8_168 => Some(8),
        8_169..=16_344 => Some(9),
        16_345..=32_696 => Some(10),
        32_697..=65_400 => Some(11),
        _ => None,
    }
}

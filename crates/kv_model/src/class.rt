ghost use Rattle.std.specs.Prelude.{◌≡◌};
ghost use Rattle.kv_model.specs.Layout.{all_classes, class_of};
ghost use Rattle.kv_model.specs.Slots.{is_class};

/// The least class, 1 to 11, that holds key and value of these lengths.
pub fn class_of(key_length: usize, value_length: usize) -> Option<u8>
    ensures { result ≡ class_of all_classes key_length value_length }
{
    if key_length < 1 || key_length > 255 {
        return None;
    }
    match key_length.saturating_add(value_length) {
        0..=48 => Some(1),
        49..=112 => Some(2),
        113..=240 => Some(3),
        241..=496 => Some(4),
        497..=1_008 => Some(5),
        1_009..=2_032 => Some(6),
        2_033..=4_080 => Some(7),
        4_081..=8_168 => Some(8),
        8_169..=16_344 => Some(9),
        16_345..=32_696 => Some(10),
        32_697..=65_400 => Some(11),
        _ => None,
    }
}

/// Whether there is a class, and it is this one.
pub fn is_class(found: Option<u8>, class: u8) -> bool
    ensures { result ≡ is_class found class }
{
    match found {
        None => false,
        Some(found) => found == class,
    }
}

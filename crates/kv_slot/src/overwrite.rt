ghost use Rattle.std.specs.Prelude.{◌≡◌, ◌+◌, ◌-◌, ◌≤◌, ◌++◌, length, take, replicate};
ghost use Rattle.kv_slot.specs.Overwrite.{overwritten};

/// Copies the bytes into the page at the offset. All other bytes stay.
pub fn put_at(page: &mut [u8], offset: usize, bytes: &[u8])
    requires { offset + length bytes.now ≤ length page.old }
    ensures { page.new ≡ overwritten page.old offset bytes.now }
{
    page[offset..offset + bytes.len()].copy_from_slice(bytes);
}

/// Fills the page with zeros from the offset on.
pub fn clear_from(page: &mut [u8], offset: usize)
    requires { offset ≤ length page.old }
    ensures { page.new ≡ take offset page.old ++ replicate (length page.old - offset) 0 }
{
    page[offset..].fill(0);
}

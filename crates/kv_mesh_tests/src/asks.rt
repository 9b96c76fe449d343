use kv_base::Bytes;
use std::alloc::Global;
use std::test::Fail;

/// What a client asks. A key has one byte, and so has a value.
#[derive(Clone, Copy, Debug, PartialEq, Eq)]
pub enum Ask {
    /// Gives the key the value.
    Put(u8, u8),
    /// Asks for the key's value.
    Get(u8),
    /// Removes it.
    Delete(u8),
    /// Ends a group.
    Flush,
    /// Asks that each later stamp be above this one.
    After(u64),
}

// Appends its frame.
fn push_frame(ask: Ask, bytes: &mut Vec<u8>) -> Result<(), Fail> {
    match ask {
        Ask::Put(key, value) => bytes.extend_from_slice(&[4, 0, 0, 0, 1, 1, key, value])?,
        Ask::Get(key) => bytes.extend_from_slice(&[2, 0, 0, 0, 2, key])?,
        Ask::Delete(key) => bytes.extend_from_slice(&[2, 0, 0, 0, 3, key])?,
        Ask::Flush => bytes.extend_from_slice(&[1, 0, 0, 0, 5])?,
        Ask::After(stamp) => {
            bytes.extend_from_slice(&[9, 0, 0, 0, 6])?;
            bytes.extend_from_slice(&stamp.to_le_bytes())?;
        }
    }
    Ok(())
}

/// The bytes that a client sends.
pub fn input_of(alloc: Global, asks: &[Ask]) -> Result<Bytes, Fail> {
    let mut bytes = Vec::new(alloc);
    for ask in asks {
        push_frame(*ask, &mut bytes)?;
    }
    Ok(Bytes::from_vec(bytes))
}

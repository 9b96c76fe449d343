ghost use Rattle.std.specs.Prelude.{◌≡◌, ◌-◌, ◌^◌, ◌≤◌, min, drop, replicate, IfOk};
ghost use Rattle.std.specs.Int.{div_ceil};

use std::fs::OpenFile;
use std::io;
use std::os::unix::fs::FileExt;

/// Bytes of a page.
pub const PAGE: usize = 4096;

/// Reads a page that begins at the offset. A read that gives fewer bytes goes on until one gives
/// none; what the file doesn't have is zeros.
pub fn read_page<F: FileExt>(file: &F, offset: u64, page: &mut [u8; 4096]) -> io::Result<()> {
    let mut at = 0;
    while at < PAGE {
        let n = file.read_at(&mut page[at..], offset.wrapping_add(at as u64))?;
        if n == 0 {
            page[at..].fill(0);
            return Ok(());
        }
        at += n;
    }
    Ok(())
}

/// Writes a page at the offset. A write that takes fewer bytes goes on, and one that takes none is
/// an error.
pub fn write_page<F: FileExt>(file: &F, offset: u64, page: &[u8; 4096]) -> io::Result<()> {
    let mut at = 0;
    while at < page.len() {
        match file.write_at(&page[at..], offset.wrapping_add(at as u64))? {
            0 => return Err(io::Error::from(io::ErrorKind::WriteZero)),
            n => at += n,
        }
    }
    Ok(())
}

/// How many pages a file has, the last one perhaps in part.
pub fn page_count<F: OpenFile>(file: &F) -> io::Result<u32> {
    Ok(pages_of(file.metadata()?.len()))
}

// The pages that so many bytes take, at most as many as can be counted.
fn pages_of(bytes: u64) -> u32
    ensures { result ≡ min (div_ceil bytes 4096) (2 ^ 32 - 1) }
{
    u32::try_from(bytes.div_ceil(PAGE as u64)).unwrap_or(u32::MAX)
}

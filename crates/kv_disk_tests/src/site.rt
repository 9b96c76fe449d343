ghost use Rattle.std.specs.Prelude.{◌≤◌, ◌<◌, ◌-◌, ◌^◌};

use kv_base::{Bytes, Calls, Failed, MemSink, MemSource, Sink, Source};
use kv_disk::{Disk, MemDisk};
use kv_site::{FileDisk, FilePages, FileSite, MemSite, Site, TakeFault};
use std::alloc::Global;
use std::cell::Cell;
use std::fs::{Metadata, OpenFile};
use std::os::unix::fs::FileExt;
use std::test::Fail;
use std::{fs, io};

fn take_session<S: Site>(
    site: &mut S,
    number: u32,
    input: &str,
    output: &str,
) -> Result<(S::In, S::Out), TakeFault> {
    site.take_session(number, input, output)
}

fn take_disk<S: Site>(site: &mut S, folder: &str, worker: u32) -> Result<S::Pages, TakeFault> {
    site.take_disk(folder, worker)
}

fn take_report<S: Site>(site: &mut S) -> Result<S::Out, TakeFault> {
    site.take_report()
}

fn give_session<S: Site>(site: &mut S, number: u32, ends: (S::In, S::Out)) {
    let (source, sink) = ends;
    site.give_session(number, source, sink);
}

fn give_disk<S: Site>(site: &mut S, worker: u32, disk: S::Pages) {
    site.give_disk(worker, disk);
}

fn give_report<S: Site>(site: &mut S, sink: S::Out) {
    site.give_report(sink);
}

fn put_session(alloc: Global, site: &mut MemSite, number: u32) -> Result<(), Fail> {
    let source = MemSource::new(Bytes::copy(alloc, b"abc")?, 9, Calls::none());
    let sink = MemSink::new(alloc, 9, Calls::none())?;
    site.put_session(number, source, sink)?;
    Ok(())
}

fn put_disk(alloc: Global, site: &mut MemSite, folder: &str, worker: u32) -> Result<(), Fail> {
    let disk = MemDisk::new(alloc, 2, 9, Calls::none())?;
    site.put_disk(folder, worker, disk)?;
    Ok(())
}

fn put_report(alloc: Global, site: &mut MemSite) -> Result<(), Fail> {
    site.put_report(MemSink::new(alloc, 9, Calls::none())?);
    Ok(())
}

#[test]
fn a_take_fails_at_a_listed_number_and_where_nothing_is_held(rt: HostRuntime) -> Result<(), Fail> {
    let alloc = rt.alloc();
    let mut site = MemSite::new(alloc, Calls::of(alloc, &[2, 5])?);
    put_session(alloc, &mut site, 0)?;
    put_disk(alloc, &mut site, "a", 3)?;
    put_report(alloc, &mut site)?;
    // what is taken (a session's number, a worker's disk in the folder `a`, else the report), and
    // the fault
    let rows = [
        (Some(0), None, None),
        (None, Some(3), Some(TakeFault::Failed)),
        (None, Some(3), None),
        (Some(1), None, Some(TakeFault::Failed)),
        (None, None, Some(TakeFault::Failed)),
        (None, None, None),
        (None, None, Some(TakeFault::Failed)),
        (None, Some(3), Some(TakeFault::Failed)),
        (Some(0), None, Some(TakeFault::Failed)),
    ];
    for (take, (session, worker, fault)) in rows.iter().enumerate() {
        let found = match (session, worker) {
            (Some(number), _) => take_session(&mut site, *number, "-", "-").err(),
            (None, Some(worker)) => take_disk(&mut site, "a", *worker).err(),
            (None, None) => take_report(&mut site).err(),
        };
        assert_eq!(rt; found, *fault, "take {take}, from 0");
    }
    Ok(())
}

#[test]
fn what_is_given_back_stands_where_it_was_taken_from(rt: HostRuntime) -> Result<(), Fail> {
    let alloc = rt.alloc();
    let mut site = MemSite::new(alloc, Calls::none());
    put_disk(alloc, &mut site, "a", 0)?;
    put_disk(alloc, &mut site, "b", 0)?;
    put_disk(alloc, &mut site, "b", 1)?;
    let from_a = take_disk(&mut site, "a", 0)?;
    assert!(rt; site.disk("a", 0).is_none() && site.disk("b", 0).is_some());
    let from_b = take_disk(&mut site, "b", 0)?;
    give_disk(&mut site, 0, from_a);
    assert!(rt; site.disk("a", 0).is_none(), "the last take was from b");
    assert!(rt; site.disk("b", 0).is_some(), "the last take was from b");
    give_disk(&mut site, 2, from_b);
    assert!(rt;
        site.disk("b", 2).is_none(),
        "nothing was ever taken for worker 2"
    );
    assert!(rt; site.disk("b", 1).is_some(), "the other worker's stays");
    put_session(alloc, &mut site, 0)?;
    put_session(alloc, &mut site, 1)?;
    let ends = take_session(&mut site, 1, "-", "-")?;
    assert!(rt; site.session(0).is_some() && site.session(1).is_none());
    give_session(&mut site, 1, ends);
    assert!(rt; site.session(1).is_some());
    let ends = take_session(&mut site, 1, "-", "-")?;
    give_session(&mut site, 0, ends);
    assert!(rt;
        site.session(1).is_none(),
        "given to session 0, where nothing was ever taken"
    );
    put_report(alloc, &mut site)?;
    let sink = take_report(&mut site)?;
    assert!(rt; site.report().is_none());
    give_report(&mut site, sink);
    assert!(rt; site.report().is_some());
    Ok(())
}

// Reads one page into a new buffer.
fn page_of<D: Disk>(disk: &mut D, file: u8, page: u32) -> Result<[u8; 4096], Failed>
    requires file { file ≤ 13 }
    requires page { page < 2 ^ 32 - 1 }
{
    let mut buf = [5; 4096];
    disk.read(file, page, &mut buf)?;
    Ok(buf)
}

fn write_page<D: Disk>(
    disk: &mut D,
    file: u8,
    page: u32,
    content: &[u8; 4096],
) -> Result<(), Failed>
    requires file { file ≤ 13 }
    requires page { page < 2 ^ 32 - 1 }
{
    disk.write(file, page, content)
}

fn sync<D: Disk>(disk: &mut D) -> Result<(), Failed> {
    disk.sync()
}

fn length_of<D: Disk>(disk: &mut D, file: u8) -> Result<u32, Failed>
    requires { file ≤ 13 }
{
    disk.length(file)
}

#[test]
fn a_disk_of_files_keeps_its_pages(rt: HostRuntime) -> Result<(), Fail> {
    let folder = "kv_site_test_pages";
    let _ = fs::remove_dir_all(&rt, folder);
    let mut site = FileSite::new(rt);
    let mut disk = take_disk(&mut site, folder, 3)?;
    assert_eq!(rt; disk.length(1), Ok(0));
    assert_eq!(rt;
        page_of(&mut disk, 1, 0)?,
        [0; 4096],
        "it was never written"
    );
    disk.write(1, 2, &[7; 4096])?;
    disk.write(13, 0, &[9; 4096])?;
    disk.sync()?;
    disk.write(1, 0, &[8; 4096])?;
    disk.sync()?;
    disk.sync()?;
    assert_eq!(rt;
        take_disk(&mut site, folder, 3).err(),
        Some(TakeFault::Failed),
        "its folder is taken"
    );
    give_disk(&mut site, 3, disk);
    assert_eq!(rt; fs::metadata(&rt, "kv_site_test_pages/3/1")?.len(), 12288);
    let mut disk = take_disk(&mut site, folder, 3)?;
    assert_eq!(rt; disk.length(1), Ok(3));
    assert_eq!(rt; disk.length(2), Ok(0));
    for (file, page, byte) in [(1, 0, 8), (1, 1, 0), (1, 2, 7), (1, 9, 0), (13, 0, 9)] {
        assert_eq!(rt;
            page_of(&mut disk, file, page)?,
            [byte; 4096],
            "page {page} of file {file}"
        );
    }
    let mut other = take_disk(&mut site, folder, 4)?;
    assert_eq!(rt;
        other.length(1),
        Ok(0),
        "another worker's files are its own"
    );
    drop((disk, other));
    fs::remove_dir_all(&rt, folder)?;
    Ok(())
}

#[test]
fn what_cannot_be_opened_is_refused(rt: HostRuntime) -> Result<(), Fail> {
    let folder = "kv_site_test_refused";
    let _ = fs::remove_dir_all(&rt, folder);
    fs::create_dir(&rt, folder)?;
    fs::write(&rt, "kv_site_test_refused/plain", b"abc".as_slice())?;
    let mut site = FileSite::new(rt);
    let below = take_disk(&mut site, "kv_site_test_refused/plain/db", 0);
    assert_eq!(rt;
        below.err(),
        Some(TakeFault::Failed),
        "a folder below a plain file"
    );
    let plain = take_disk(&mut site, "kv_site_test_refused/plain", 0);
    assert_eq!(rt;
        plain.err(),
        Some(TakeFault::Failed),
        "a plain file is no folder"
    );
    let missing = take_session(&mut site, 0, "kv_site_test_refused/none", "-");
    assert_eq!(rt; missing.err(), Some(TakeFault::Failed), "a missing input");
    let no_output = take_session(&mut site, 0, "-", "kv_site_test_refused/none/out");
    assert_eq!(rt;
        no_output.err(),
        Some(TakeFault::Failed),
        "an output in a missing folder"
    );
    assert!(rt; take_report(&mut site).is_ok());
    fs::remove_dir_all(&rt, folder)?;
    Ok(())
}

#[test]
fn a_session_reads_and_writes_files(rt: HostRuntime) -> Result<(), Fail> {
    let folder = "kv_site_test_session";
    let _ = fs::remove_dir_all(&rt, folder);
    fs::create_dir(&rt, folder)?;
    let (input, output) = ("kv_site_test_session/in", "kv_site_test_session/out");
    fs::write(&rt, input, b"abc".as_slice())?;
    fs::write(&rt, output, b"what stood there before".as_slice())?;
    let mut site = FileSite::new(rt);
    let (mut source, mut sink) = take_session(&mut site, 0, input, output)?;
    let mut buf = [0; 8];
    assert_eq!(rt; source.read(&mut buf), Ok(3));
    assert_eq!(rt; buf[..3], *b"abc".as_slice());
    assert_eq!(rt; source.read(&mut buf), Ok(0));
    assert_eq!(rt; sink.write(b"reply"), Ok(5));
    give_session(&mut site, 0, (source, sink));
    assert_eq!(rt; fs::read(&rt, output)?.as_slice(), b"reply".as_slice());
    assert!(rt; take_session(&mut site, 1, "-", "kv_site_test_session/new").is_ok());
    assert!(rt; fs::exists(&rt, "kv_site_test_session/new")?);
    fs::remove_dir_all(&rt, folder)?;
    Ok(())
}

// A file in memory. A call moves at most so many bytes, and fails at the listed numbers, counted
// from 1 over all its calls.
#[derive(Drop)]
struct MemoryFile {
    bytes: Cell<[u8; 8192]>,
    length: Cell<usize>,
    most: usize,
    failing: Calls,
    calls: Cell<u64>,
}

impl MemoryFile {
    fn new(length: usize, most: usize, failing: Calls) -> MemoryFile {
        let mut bytes = [0; 8192];
        for at in 0..8192usize {
            bytes[at] = pattern(at);
        }
        MemoryFile {
            bytes: Cell::new(bytes),
            length: Cell::new(length),
            most,
            failing,
            calls: Cell::new(0),
        }
    }

    fn begin(&self) -> io::Result<()> {
        self.calls.set(self.calls.get().saturating_add(1));
        if self.failing.has(self.calls.get()) {
            return Err(io::Error::from(io::ErrorKind::Other));
        }
        Ok(())
    }
}

// The byte at an offset of a new file in memory.
fn pattern(at: usize) -> u8 {
    (at % 251) as u8
}

impl FileExt for MemoryFile {
    fn read_at(&self, buf: &mut [u8], offset: u64) -> io::Result<usize> {
        self.begin()?;
        let bytes = self.bytes.get();
        let length = self.length.get().min(8192);
        let from = (offset as usize).min(length);
        let n = buf.len().min(self.most).min(length - from);
        buf[..n].copy_from_slice(&bytes[from..from + n]);
        Ok(n)
    }

    fn write_at(&self, buf: &[u8], offset: u64) -> io::Result<usize> {
        self.begin()?;
        let mut bytes = self.bytes.get();
        let from = (offset as usize).min(8192);
        let n = buf.len().min(self.most).min(8192 - from);
        bytes[from..from + n].copy_from_slice(&buf[..n]);
        self.bytes.set(bytes);
        self.length.set(self.length.get().max(from + n));
        Ok(n)
    }
}

impl OpenFile for MemoryFile {
    fn metadata(&self) -> io::Result<Metadata> {
        self.begin()?;
        Ok(Metadata::of_file(self.length.get() as u64))
    }

    fn set_len(&self, _size: u64) -> io::Result<()> {
        self.begin()
    }

    fn sync_all(&self) -> io::Result<()> {
        self.begin()
    }

    fn sync_data(&self) -> io::Result<()> {
        self.begin()
    }
}

// A disk of files in memory of 5,000 bytes each, of which a call moves at most so many bytes. File
// 3 and the folder of all files fail at their listed calls.
fn memory_disk(
    alloc: Global,
    most: usize,
    of_file: &[u32],
    of_folder: &[u32],
) -> Result<FileDisk<FilePages<MemoryFile>>, Fail> {
    let mut files = Vec::with_capacity(alloc, 17)?;
    for number in 0..17u8 {
        let failing = match number {
            3 => Calls::of(alloc, of_file)?,
            14 => Calls::of(alloc, of_folder)?,
            _ => Calls::none(),
        };
        let file = MemoryFile::new(5000, most, failing);
        files.push(if number < 14 {
            FilePages::of_file(file)
        } else {
            FilePages::of_folder(file)
        })?;
    }
    Ok(FileDisk::new(files))
}

#[test]
fn a_page_that_moves_in_part_goes_on(rt: HostRuntime) -> Result<(), Fail> {
    let mut disk = memory_disk(rt.alloc(), 1000, &[], &[])?;
    // page, how many of its bytes the file has
    for (page, bytes) in [(0, 4096), (1, 904), (2, 0)] {
        let mut expected = [0; 4096];
        for at in 0..4096usize {
            if at < bytes {
                expected[at] = pattern(page as usize * 4096 + at);
            }
        }
        assert_eq!(rt; page_of(&mut disk, 3, page)?, expected, "page {page}");
    }
    assert_eq!(rt; length_of(&mut disk, 3), Ok(2));
    let mut content = [0; 4096];
    for at in 0..4096usize {
        content[at] = pattern(at / 7);
    }
    let first = page_of(&mut disk, 3, 0)?;
    write_page(&mut disk, 3, 1, &content)?;
    assert_eq!(rt; page_of(&mut disk, 3, 1)?, content);
    assert_eq!(rt; page_of(&mut disk, 3, 0)?, first, "the page in front stays");
    write_page(&mut disk, 3, 1, &[0; 4096])?;
    assert_eq!(rt;
        page_of(&mut disk, 3, 1)?,
        [0; 4096],
        "zeros are written too"
    );
    Ok(())
}

#[test]
fn a_failed_call_of_a_file_is_a_fault(rt: HostRuntime) -> Result<(), Fail> {
    let alloc = rt.alloc();
    // bytes that a call moves, the call of file 3 that fails; what a read, a write, a sync and a
    // length then answer
    let fails = Err(Failed);
    let rows = [
        (4096, 1, [fails, Ok(()), Ok(()), Ok(())]),
        (4096, 2, [Ok(()), fails, Ok(()), Ok(())]),
        (4096, 3, [Ok(()), Ok(()), fails, Ok(())]),
        (4096, 4, [Ok(()), Ok(()), Ok(()), fails]),
        (1000, 3, [fails, Ok(()), Ok(()), Ok(())]),
        (1000, 8, [Ok(()), fails, Ok(()), Ok(())]),
        (0, 9, [Ok(()), fails, Ok(()), Ok(())]),
    ];
    for (most, call, expected) in rows {
        let mut disk = memory_disk(alloc, most, &[call], &[])?;
        let found = [
            page_of(&mut disk, 3, 0).map(|_| ()),
            write_page(&mut disk, 3, 0, &[7; 4096]),
            sync(&mut disk),
            length_of(&mut disk, 3).map(|_| ()),
        ];
        assert_eq!(rt; found, expected, "{most} bytes a call, call {call} fails");
    }
    Ok(())
}

#[test]
fn a_sync_goes_on_where_the_last_one_failed(rt: HostRuntime) -> Result<(), Fail> {
    // File 3 fails at its first sync, and the folder at its first. No file is synced twice: the
    // second call of either would fail too.
    let mut disk = memory_disk(rt.alloc(), 4096, &[1, 3], &[1, 3])?;
    let rows = [Err(Failed), Err(Failed), Ok(()), Ok(())];
    for (i, expected) in rows.iter().enumerate() {
        assert_eq!(rt; sync(&mut disk), *expected, "sync {i}");
    }
    Ok(())
}

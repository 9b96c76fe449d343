use kv_base::{Bytes, Calls, MemSink, MemSource};
use kv_disk::MemDisk;
use kv_serve::{Ended, run_words};
use kv_site::{MemSite, Site};
use std::alloc::Global;
use std::sync::Wait;
use std::test::Fail;
use std::thread::Threads;

/// How a command ended, the bytes that went out, and the disk that came back.
#[derive(Drop)]
pub struct Left {
    /// How the command ended.
    pub ended: Ended,
    /// The bytes that went out.
    pub output: Vec<u8>,
    /// The disk that came back.
    pub disk: MemDisk,
}

/// Serves a session with this input over the disk. The sink fails at the listed calls.
pub fn serve<R: Threads + Wait + Copy + Send + 'static>(
    rt: R,
    alloc: Global,
    disk: MemDisk,
    input: &[u8],
    fails: &[u32],
) -> Result<Left, Fail> {
    run(
        rt,
        alloc,
        &["serve", "D", "1", "-", "-"],
        disk,
        input,
        fails,
    )
}

/// Carries out a command over a site with the disk in D and a session with this input.
pub fn run<R: Threads + Wait + Copy + Send + 'static>(
    rt: R,
    alloc: Global,
    words: &[&str],
    disk: MemDisk,
    input: &[u8],
    fails: &[u32],
) -> Result<Left, Fail> {
    let words = words_of(alloc, words)?;
    let mut site = site_over(alloc, disk, input, fails)?;
    let ended = command(rt, alloc, &words, &mut site);
    left_by(alloc, ended, site)
}

// No clause says what came of it: its callers compare values.
fn command<R: Threads + Wait + Copy + Send + 'static>(
    rt: R,
    alloc: Global,
    words: &[String],
    site: &mut MemSite,
) -> Ended {
    run_words(rt, alloc, words, site)
}

/// Carries out a command over a site with the disk in D and a sink for a report, which fails at the
/// listed calls.
pub fn report<R: Threads + Wait + Copy + Send + 'static>(
    rt: R,
    alloc: Global,
    words: &[&str],
    disk: MemDisk,
    fails: &[u32],
) -> Result<Left, Fail> {
    let words = words_of(alloc, words)?;
    let mut site = MemSite::new(alloc, Calls::none());
    site.put_disk("D", 0, disk)?;
    site.put_report(MemSink::new(alloc, 20_000, Calls::of(alloc, fails)?)?);
    let ended = command(rt, alloc, &words, &mut site);
    let output = Vec::from_slice(alloc, report_of(&site))?;
    left_with(ended, output, site)
}

fn report_of(site: &MemSite) -> &[u8] {
    match site.report() {
        Some(sink) => sink.taken(),
        None => &[],
    }
}

/// Carries out a command over the site.
pub fn command_over<R: Threads + Wait + Copy + Send + 'static>(
    rt: R,
    alloc: Global,
    words: &[&str],
    site: &mut MemSite,
) -> Result<Ended, Fail> {
    let words = words_of(alloc, words)?;
    Ok(command(rt, alloc, &words, site))
}

fn words_of(alloc: Global, words: &[&str]) -> Result<Vec<String>, Fail> {
    let mut all = Vec::new(alloc);
    for word in words {
        all.push(String::from_str(alloc, word)?)?;
    }
    Ok(all)
}

fn site_over(alloc: Global, disk: MemDisk, input: &[u8], fails: &[u32]) -> Result<MemSite, Fail> {
    let mut site = MemSite::new(alloc, Calls::none());
    site.put_disk("D", 0, disk)?;
    let source = MemSource::new(Bytes::copy(alloc, input)?, 4_096, Calls::none());
    let sink = MemSink::new(alloc, 20_000, Calls::of(alloc, fails)?)?;
    site.put_session(0, source, sink)?;
    Ok(site)
}

fn left_by(alloc: Global, ended: Ended, site: MemSite) -> Result<Left, Fail> {
    let output = Vec::from_slice(alloc, output_of(&site))?;
    left_with(ended, output, site)
}

fn left_with(ended: Ended, output: Vec<u8>, mut site: MemSite) -> Result<Left, Fail> {
    match disk_of(&mut site) {
        Some(disk) => Ok(Left {
            ended,
            output,
            disk,
        }),
        None => Err(Fail::new("the disk came back")),
    }
}

fn output_of(site: &MemSite) -> &[u8] {
    match site.session(0) {
        Some((_, sink)) => sink.taken(),
        None => &[],
    }
}

fn disk_of(site: &mut MemSite) -> Option<MemDisk> {
    site.take_disk("D", 0).ok()
}

/// A new disk whose listed calls fail.
pub fn new_disk(alloc: Global, fails: &[u32]) -> Result<MemDisk, Fail> {
    Ok(MemDisk::new(alloc, 32, 512, Calls::of(alloc, fails)?)?)
}

/// The disk that a crash at the moment leaves by this choice.
pub fn crashed(disk: &MemDisk, moment: u32, choice: &[u32]) -> Result<MemDisk, Fail> {
    if moment > disk.calls() {
        return Err(Fail::new("the disk had so many calls"));
    }
    Ok(disk.crash(moment, choice)?)
}

ghost use Rattle.std.specs.Prelude.{◌≡◌, ◌++◌, ◌+◌, [], replicate, vec_len, IfOk, OnOk};
ghost use Rattle.kv_site.specs.FilePages.{just_opened};

use crate::file_pages::FilePages;
use crate::{FileDisk, TakeFault};
use std::alloc::Global;
use std::fs::{File, Files};
use std::{fs, io};

const FILES: usize = 14;

/// Opens the disk of the worker in this folder: file f of worker w in DIR is `DIR/w/f`, both
/// numbers in decimal. What is missing of DIR, `DIR/w` and the files is made; the parent of DIR has to be
/// there. It holds a lock on file 0, and fails where another process has it.
pub fn open_disk(
    rt: &HostRuntime,
    alloc: Global,
    folder: &str,
    worker: u32,
) -> Result<FileDisk<FilePages<File>>, TakeFault>
    ensures ok { IfOk result (λ disk. disk ≡ record {
      files = replicate 17 just_opened;
      calls = 0;
      faults = 0;
    }) }
{
    let home = format!(in alloc; "{folder}/{worker}")?;
    make_folder(rt, folder)?;
    make_folder(rt, home.as_str())?;
    let mut files = Vec::with_capacity(alloc, FILES + 3)?;
    open_files(rt, alloc, home.as_str(), &mut files)?;
    open_folders(rt, alloc, folder, home.as_str(), &mut files)?;
    Ok(FileDisk::new(files))
}

// Makes a folder where it is missing. Its parent is there.
fn make_folder<R: Files>(rt: &R, path: &str) -> io::Result<()> {
    match fs::create_dir(rt, path) {
        Err(error) if error.kind() != io::ErrorKind::AlreadyExists => Err(error),
        _ => Ok(()),
    }
}

// Opens a file of pages, which is made where it is missing.
fn open_file<R: Files>(rt: &R, path: &str) -> io::Result<R::File> {
    File::options()
        .read(true)
        .write(true)
        .create(true)
        .open(rt, path)
}

// Opens the 14 files, the first of which is locked.
fn open_files(
    rt: &HostRuntime,
    alloc: Global,
    home: &str,
    files: &mut Vec<FilePages<File>>,
) -> Result<(), TakeFault>
    requires { files.old.items ≡ [] }
    ensures opened { OnOk result (files.new.items ≡ replicate 14 just_opened) }
    ensures length { OnOk result (vec_len files.new ≡ vec_len files.old + 14) }
{
    for number in 0..FILES {
        let path = format!(in alloc; "{home}/{number}")?;
        let file = open_file(rt, path.as_str())?;
        if number == 0 && file.try_lock().is_err() {
            return Err(TakeFault::Failed);
        }
        files.push(FilePages::of_file(file))?;
    }
    Ok(())
}

// Opens the folder of the files, its own folder and the parent of that.
fn open_folders(
    rt: &HostRuntime,
    alloc: Global,
    folder: &str,
    home: &str,
    files: &mut Vec<FilePages<File>>,
) -> Result<(), TakeFault>
    ensures opened { OnOk result (files.new.items ≡ files.old.items ++ replicate 3 just_opened) }
    ensures length { OnOk result (vec_len files.new ≡ vec_len files.old + 3) }
{
    let parent = format!(in alloc; "{folder}/..")?;
    files.push(FilePages::of_folder(File::open(rt, home)?))?;
    files.push(FilePages::of_folder(File::open(rt, folder)?))?;
    files.push(FilePages::of_folder(File::open(rt, parent.as_str())?))?;
    Ok(())
}

use std::fs::{File, Files};
use std::io;
use std::io::{Read, Stdin, Stdout, Write};

/// Standard input or a file that is open for reading.
#[derive(Drop)]
pub enum Input {
    /// Standard input.
    Standard(Stdin),
    /// A file or a pipe.
    File(File),
}

impl Input {
    /// Opens what the word names: `-` is standard input.
    pub(crate) fn open(rt: &HostRuntime, word: &str) -> io::Result<Input> {
        if word == "-" {
            return Ok(Input::Standard(rt.stdin()));
        }
        Ok(Input::File(File::open(rt, word)?))
    }
}

impl Read for Input {
    fn read(&mut self, buf: &mut [u8]) -> io::Result<usize> {
        match self {
            Input::Standard(stdin) => stdin.read(buf),
            Input::File(file) => file.read(buf),
        }
    }
}

/// Standard output or a file that is open for writing.
#[derive(Drop)]
pub enum Output {
    /// Standard output.
    Standard(Stdout),
    /// A file or a pipe.
    File(File),
}

impl Output {
    /// Opens what the word names: `-` is standard output. Another file is made where it is missing,
    /// and a plain one is cut to length 0.
    pub(crate) fn open(rt: &HostRuntime, word: &str) -> io::Result<Output> {
        if word == "-" {
            return Ok(Output::Standard(rt.stdout()));
        }
        let file = File::options()
            .write(true)
            .create(true)
            .truncate(true)
            .open(rt, word)?;
        Ok(Output::File(file))
    }
}

impl Write for Output {
    fn write(&mut self, buf: &[u8]) -> io::Result<usize> {
        match self {
            Output::Standard(stdout) => stdout.write(buf),
            Output::File(file) => file.write(buf),
        }
    }

    fn flush(&mut self) -> io::Result<()> {
        Ok(())
    }
}

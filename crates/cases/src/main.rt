#![tactic(auto)]

use std::env::FillError;
use std::os::fd::AsRawFd;
use std::rt::Env;

// A file that is open, to be read.
fn opened(rt: HostRuntime, name: &[u8]) -> Result<std::fs::File, ()> {
    match std::str::from_utf8(name) {
        Ok(path) => std::fs::open(&rt, path).map_err(|_| ()),
        Err(_) => Err(()),
    }
}

// Prints the sheet of each file that its arguments name, under a line with the name: document 01's limits and document 000's examples.
fn one(rt: HostRuntime, k: usize) {
    let mut name = io::buffer();
    let length = rt.arg(k, &mut name).unwrap_or(0);
    let opened = opened(rt, &name[..length]);
    io::write_all(1, b"# ");
    io::write_all(1, &name[..length]);
    io::write_all(1, b"\n");
    match opened {
        Err(()) => {
            io::write_all(1, b"no such file\n");
        }
        Ok(file) => {
            // Of a longer file than 9,296 bytes only that it is longer matters.
            let mut buf = [0u8; 9304];
            let n = io::read_full(file.as_raw_fd(), &mut buf);
            let _ = show::sheet(&buf[..n]);
        }
    }
}

fn is_missing(taken: Result<usize, FillError>) -> bool {
    match taken {
        Err(FillError::NotPresent) => true,
        _ => false,
    }
}

// How many arguments there are, the program's own name among them.
fn count(rt: HostRuntime) -> usize {
    let mut space = [0u8; 1];
    for k in 0..usize::MAX {
        if is_missing(rt.arg(k, &mut space)) {
            return k;
        }
    }
    usize::MAX
}

fn main(rt: HostRuntime) {
    let n = count(rt);
    for k in 1..n {
        one(rt, k);
    }
}

// A file that is made, and never one that is there: so the file that was read is never touched, whatever names it goes by.
use input::Failure;
use std::fs::{OpenFile, OpenOptions};
use std::io::{Error, Write};
use std::rt::{Env, Files};

// What is done, or the failure where it went wrong: then it has been said what.
fn well<T>(name: &[u8], done: Result<T, Error>) -> Result<T, Failure> {
    done.map_err(|why| input::trouble(name, why))
}

// Writes the bytes, all of them.
fn filled<F: Write + OpenFile>(file: &mut F, name: &[u8], bytes: &[u8]) -> Result<(), Failure> {
    well(name, file.write_all(bytes))?;
    well(name, file.sync_all())
}

fn made(rt: &impl Files, name: &[u8], bytes: &[u8]) -> Result<(), Failure> {
    let path = well(name, input::path(name))?;
    let made = OpenOptions::new()
        .write(true)
        .create_new(true)
        .open(rt, path);
    let mut file = well(name, made)?;
    let all = filled(&mut file, name, bytes);
    drop(file);
    if all.is_err() {
        let _ = std::fs::remove_file(rt, path);
    }
    all
}

// Makes the file that argument k names, whole, of these bytes.
pub(crate) fn new(rt: &(impl Env + Files), k: usize, bytes: &[u8]) -> Result<(), Failure> {
    let mut name = io::buffer();
    let n = well(b"a name", input::taken(rt, k, &mut name))?;
    made(rt, texts::part(&name, 0, n), bytes)
}

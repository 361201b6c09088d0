// What the arguments of the command name, read whole, and the graph file of it; trouble with it, and what a board text gets wrong, is said. What is
// read, whether it can be, and whether what is said is taken, is the system's to say: no contract can.
#![tactic(auto)]

pub mod given;
mod net;
pub mod word;

ghost use Rattle.std.specs.Io.{ReadsAtMost};

use std::env::FillError;
use std::io::{Cursor, Error, Read, Write};
use std::rt::{Env, Files};

// Why there is no answer: the planner says no, or there is trouble. It has been said which.
#[derive(Clone, Copy, Debug, PartialEq, Eq)]
pub enum Failure {
    No,
    Trouble,
}

// The system's numbers for an argument that is not there, for one that is too long, and for a name that it doesn't take.
const EINVAL: i32 = 22;

const ENAMETOOLONG: i32 = 36;

const EILSEQ: i32 = 84;

// How many bytes of it stand before the number that std puts behind the system's words.
fn words(t: &[u8]) -> usize {
    match t.iter().position(|b| *b == b'(') {
        Some(n) => n.saturating_sub(1),
        None => t.len(),
    }
}

// Says why, in the system's words.
fn reason(why: Error) -> bool {
    let mut said = Cursor::new([0u8; 256]);
    let _ = write!(said, "{why}");
    let n = said.position() as usize;
    let text = texts::part(said.get_ref(), 0, n);
    io::write_all(2, texts::part(text, 0, words(text)))
}

// Says what failed, and why the system says that it did.
pub fn trouble(what: &[u8], why: Error) -> Failure {
    io::write_all(2, b"plan: ");
    io::write_all(2, what);
    io::write_all(2, b": ");
    reason(why);
    io::write_all(2, b"\n");
    Failure::Trouble
}

// The answer where all of it has been written; else trouble, and what went wrong is said.
pub fn answer(written: bool) -> Result<(), Failure> {
    if written {
        return Ok(());
    }
    Err(trouble(b"standard output", std_io::io::last_error()))
}

// A no where all of it has been written, else trouble.
pub fn no(written: bool) -> Failure {
    match answer(written) {
        Ok(()) => Failure::No,
        Err(failure) => failure,
    }
}

// Says what is wrong with the words of the command.
pub fn wrong(what: &[u8]) -> Failure {
    io::write_all(2, b"plan: ");
    io::write_all(2, what);
    io::write_all(2, b"; see 'plan help'\n");
    Failure::Trouble
}

// Some bytes more.
fn some<R: Read>(from: &mut R, room: &mut [u8]) -> Result<usize, Error>
    ensures { ReadsAtMost result room.new }
{
    from.read(room)
}

fn fill<R: Read>(from: &mut R, name: &[u8], room: &mut [u8]) -> Result<usize, Failure> {
    let mut n = 0;
    while n < room.len() {
        match some(from, &mut room[n..]) {
            Err(why) => return Err(trouble(name, why)),
            Ok(0) => return Ok(n),
            Ok(got) => n += got,
        }
    }
    Ok(n)
}

// Whether a name stands for standard input.
fn standard(name: &[u8]) -> bool {
    texts::equal(name, b"-")
}

// A name as a path, which is UTF-8.
pub fn path(name: &[u8]) -> Result<&str, Error> {
    std::str::from_utf8(name).map_err(|_| Error::from_raw_os_error(EILSEQ))
}

fn opened<R: Files>(rt: &R, name: &[u8]) -> Result<R::File, Error> {
    std::fs::open(rt, path(name)?)
}

// Reads what a name stands for.
fn take(
    rt: &(impl Files + std::io::Input),
    name: &[u8],
    room: &mut [u8],
) -> Result<usize, Failure> {
    if standard(name) {
        return fill(&mut rt.reader(), name, room);
    }
    match opened(rt, name) {
        Ok(mut file) => fill(&mut file, name, room),
        Err(why) => Err(trouble(name, why)),
    }
}

// Takes argument k: its length where all of it is in the room, else why not.
pub fn taken(rt: &impl Env, k: usize, room: &mut [u8]) -> Result<usize, Error> {
    match rt.arg(k, room) {
        Ok(n) => Ok(n),
        Err(FillError::NotPresent) => Err(Error::from_raw_os_error(EINVAL)),
        Err(FillError::TooLong) => Err(Error::from_raw_os_error(ENAMETOOLONG)),
    }
}

// The same, where it doesn't matter why not.
pub fn argument(rt: &impl Env, k: usize, room: &mut [u8]) -> Option<usize> {
    rt.arg(k, room).ok()
}

// Reads what argument k names: how many bytes it has, or the room's length where it has that many or more. Where that can't be done, it has been said why.
pub fn read(
    rt: &(impl Env + Files + std::io::Input),
    k: usize,
    room: &mut [u8],
) -> Result<usize, Failure> {
    let mut name = io::buffer();
    match taken(rt, k, &mut name) {
        Ok(n) => take(rt, texts::part(&name, 0, n), room),
        Err(why) => Err(trouble(b"a name", why)),
    }
}

// Whether argument k is standard input.
pub fn is_standard(rt: &impl Env, k: usize) -> bool {
    let mut name = io::buffer();
    match rt.arg(k, &mut name) {
        Ok(n) => standard(&name[..n]),
        Err(_) => false,
    }
}

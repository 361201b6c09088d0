// The letters B, N, P and C of the probe: the bounds of a file; its second bound; its path; how many cores are enough. Each takes a request's payload and prints the line that answers it.
#![tactic(auto)]

use graph::Refusal;
use wire::PRESET;

// A refusal stands before the figures, which are 0 then.
fn refused(r: Refusal) {
    print::refused(r.number, r.place);
    print::text(b" ")
}

fn figures(old: u64, new: u64, ticks: u64) {
    print::given(b"old", old);
    print::given(b" new", new);
    print::given(b" ticks", ticks);
    print::text(b"\n");
}

fn both(file: &[u8]) {
    match bounds::bounds(file) {
        Ok(b) => figures(b.old.0, b.new.0, b.ticks.0),
        Err(r) => {
            refused(r);
            figures(0, 0, 0)
        }
    }
}

// The file of a request that holds nothing else.
fn only_file(p: &[u8]) -> Option<&[u8]> {
    let file = wire::list(p, 0)?;
    if file.end != p.len() {
        return None;
    }
    Some(&p[file.start..file.end])
}

pub fn bounds_request(p: &[u8]) {
    match only_file(p) {
        Some(file) => both(file),
        None => print::bad(),
    }
}

// One figure under its name; 0 beside a refusal.
fn one(name: &[u8], figure: Result<u64, Refusal>) {
    let n = match figure {
        Ok(n) => n,
        Err(r) => {
            refused(r);
            0
        }
    };
    print::given(name, n);
    print::text(b"\n");
}

pub fn second_request(p: &[u8]) {
    match only_file(p) {
        Some(file) => one(b"second", second::second(file).map(|parts| parts.0)),
        None => print::bad(),
    }
}

fn found(path: Result<usize, Refusal>) {
    match path {
        Ok(n) => print::given(b"path", n as u64),
        Err(r) => print::refused(r.number, r.place),
    }
}

fn path(file: &[u8], lent: &mut [u8]) {
    found(bounds::path(file, lent));
    print::lent_bytes(lent)
}

// The path of a request's file; none where it is no such request.
fn path_asked(p: &[u8]) -> Option<()> {
    let file = wire::list(p, 0)?;
    let room = wire::number(p, file.end)?;
    if (room.end != p.len()) | (room.value > 32768) {
        return None;
    }
    let mut lent = [PRESET; 32768];
    path(&p[file.start..file.end], &mut lent[..room.value as usize]);
    Some(())
}

pub fn path_request(p: &[u8]) {
    path_asked(p).unwrap_or_else(print::bad)
}

// Kind and limit are any numbers of 32 bits; a wider one is no request.
fn enough_asked(p: &[u8]) -> Option<()> {
    let file = wire::list(p, 0)?;
    let kind = wire::number(p, file.end)?;
    let limit = wire::number(p, kind.end)?;
    if limit.end != p.len() {
        return None;
    }
    let kind = u32::try_from(kind.value).ok()?;
    let limit = u32::try_from(limit.value).ok()?;
    let fewest = enough::enough(&p[file.start..file.end], kind, limit);
    one(b"cores", fewest.map(u64::from));
    Some(())
}

pub fn enough_request(p: &[u8]) {
    enough_asked(p).unwrap_or_else(print::bad)
}

// The letters U and V of the probe: Standard Task Graph text read, and written. Each takes a request's payload and prints the line that answers it.
#![tactic(auto)]

use graph::Refusal;
use wire::PRESET;

fn length(word: &[u8], wrote: Result<usize, Refusal>) {
    match wrote {
        Ok(n) => print::given(word, n as u64),
        Err(r) => print::refused(r.number, r.place),
    }
}

fn read(text: &[u8], cores: &[u8], kinds: &[u8], lent: &mut [u8]) {
    length(b"read", stg::read(text, cores, kinds, lent));
    print::lent_bytes(lent)
}

// With so many bytes lent for the file.
fn read_asked(p: &[u8]) -> Option<()> {
    let text = wire::list(p, 0)?;
    let cores = wire::list(p, text.end)?;
    let kinds = wire::list(p, cores.end)?;
    let room = wire::number(p, kinds.end)?;
    if (room.end != p.len()) | (room.value > 32768) {
        return None;
    }
    let mut lent = [PRESET; 32768];
    read(
        &p[text.start..text.end],
        &p[cores.start..cores.end],
        &p[kinds.start..kinds.end],
        &mut lent[..room.value as usize],
    );
    Some(())
}

pub fn read_request(p: &[u8]) {
    read_asked(p).unwrap_or_else(print::bad)
}

fn write(file: &[u8], lent: &mut [u8]) {
    length(b"text", stg_writer::write(file, lent));
    print::lent_bytes(lent)
}

// With so many bytes lent for the text.
fn write_asked(p: &[u8]) -> Option<()> {
    let file = wire::list(p, 0)?;
    let room = wire::number(p, file.end)?;
    if (room.end != p.len()) | (room.value > 32768) {
        return None;
    }
    let mut lent = [PRESET; 32768];
    write(&p[file.start..file.end], &mut lent[..room.value as usize]);
    Some(())
}

pub fn write_request(p: &[u8]) {
    write_asked(p).unwrap_or_else(print::bad)
}

// The letters G and A of the probe: the gains of a file; the same with one WCET altered. Each takes a request's payload and prints the line that
// answers it.
#![tactic(auto)]

use graph::Refusal;
use wire::PRESET_LONG;

fn said(gained: Result<usize, Refusal>) {
    match gained {
        Ok(n) => print::given(b"gains", n as u64),
        Err(r) => print::refused(r.number, r.place),
    }
}

fn all(file: &[u8], lent: &mut [u64]) {
    said(gains::gains(file, lent));
    print::lent_longs(lent)
}

fn gains_asked(p: &[u8]) -> Option<()> {
    let file = wire::list(p, 0)?;
    let room = wire::number(p, file.end)?;
    if (room.end != p.len()) | (room.value > 32768) {
        return None;
    }
    let mut lent = [PRESET_LONG; 32768];
    all(&p[file.start..file.end], &mut lent[..room.value as usize]);
    Some(())
}

pub fn gains_request(p: &[u8]) {
    gains_asked(p).unwrap_or_else(print::bad)
}

fn altered(file: &[u8], vertex: u32, wcet: u32, lent: &mut [u64]) {
    said(gains::gains_altered(file, vertex, wcet, lent));
    print::lent_longs(lent)
}

// Vertex and WCET are any numbers of 32 bits; a wider one is no request.
fn altered_asked(p: &[u8]) -> Option<()> {
    let file = wire::list(p, 0)?;
    let vertex = wire::number(p, file.end)?;
    let wcet = wire::number(p, vertex.end)?;
    let room = wire::number(p, wcet.end)?;
    if (room.end != p.len()) | (room.value > 32768) {
        return None;
    }
    let vertex = u32::try_from(vertex.value).ok()?;
    let wcet = u32::try_from(wcet.value).ok()?;
    let mut lent = [PRESET_LONG; 32768];
    altered(
        &p[file.start..file.end],
        vertex,
        wcet,
        &mut lent[..room.value as usize],
    );
    Some(())
}

pub fn altered_request(p: &[u8]) {
    altered_asked(p).unwrap_or_else(print::bad)
}

// W: lists, written.
use graph::Refusal;
use wire::PRESET;

fn wrote(size: Result<usize, Refusal>) {
    match size {
        Ok(n) => print::given(b"wrote", n as u64),
        Err(r) => print::refused(r.number, r.place),
    }
}

fn answer(cores: &[u8], kinds: &[u8], wcets: &[u32], edges: &[u16], lent: &mut [u8]) {
    wrote(writer::write(cores, kinds, wcets, edges, lent));
    print::lent_bytes(lent)
}

// WCETs and edges, laid in lists of their own, and the room.
fn write_asked(p: &[u8]) -> Option<()> {
    let cores = wire::list(p, 0)?;
    let kinds = wire::list(p, cores.end)?;
    let wcets = wire::list(p, kinds.end)?;
    let edges = wire::list(p, wcets.end)?;
    let room = wire::number(p, edges.end)?;
    if (room.end != p.len()) | (room.value > 32768) {
        return None;
    }
    let wcets = &p[wcets.start..wcets.end];
    let edges = &p[edges.start..edges.end];
    if (wcets.len() % 4 != 0) | (edges.len() % 2 != 0) {
        return None;
    }
    let mut words = [0u32; 65536];
    let mut halves = [0u16; 131072];
    let mut lent = [PRESET; 32768];
    let n = wire::words(wcets, &mut words);
    let e = wire::halves(edges, &mut halves);
    answer(
        &p[cores.start..cores.end],
        &p[kinds.start..kinds.end],
        &words[..n],
        &halves[..e],
        &mut lent[..room.value as usize],
    );
    Some(())
}

pub fn write_request(p: &[u8]) {
    write_asked(p).unwrap_or_else(print::bad)
}

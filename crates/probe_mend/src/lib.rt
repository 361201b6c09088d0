// The letter M of the probe: a file mended. It takes a request's payload and prints the line that answers it.
#![tactic(auto)]

use graph::Refusal;
use mends::Sizes;
use wire::PRESET;

fn lengths(mended: Result<Sizes, Refusal>) {
    match mended {
        Ok(sizes) => {
            print::given(b"mended", sizes.file as u64);
            print::field(sizes.list as u64)
        }
        Err(r) => print::refused(r.number, r.place),
    }
}

fn mended(file: &[u8], out: &mut [u8], list: &mut [u8]) {
    lengths(mend::mend(file, out, list));
    print::text(b" :");
    print::bytes(out);
    print::lent_bytes(list)
}

// With so many bytes lent for the file, and so many for the list.
fn mend_asked(p: &[u8]) -> Option<()> {
    let file = wire::list(p, 0)?;
    let room = wire::number(p, file.end)?;
    let list_room = wire::number(p, room.end)?;
    if (list_room.end != p.len()) | (room.value > 32768) | (list_room.value > 32768) {
        return None;
    }
    let mut out = [PRESET; 32768];
    let mut list = [PRESET; 32768];
    mended(
        &p[file.start..file.end],
        &mut out[..room.value as usize],
        &mut list[..list_room.value as usize],
    );
    Some(())
}

pub fn mend_request(p: &[u8]) {
    mend_asked(p).unwrap_or_else(print::bad)
}

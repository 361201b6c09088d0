// Text and numbers.
use graph::Refusal;
use std::rt::Env;

pub fn text(w: &[u8]) -> bool {
    io::write_all(1, w)
}

pub fn number(n: u64) -> bool {
    io::print_decimal(1, n)
}

pub fn end() -> bool {
    text(b"\n")
}

// A blank and a number.
pub fn field(n: u64) -> bool {
    text(b" ") & number(n)
}

// What was given as argument k; nothing where it is longer than 4,096 bytes.
pub fn argument(rt: &impl Env, k: usize) -> bool {
    let mut name = io::buffer();
    match rt.arg(k, &mut name) {
        Ok(n) => text(&name[..n]),
        Err(_) => true,
    }
}

pub fn refused(r: Refusal) -> bool {
    let number = text(b"refused") & field(r.number as u64);
    number & text(b" at") & field(r.place as u64) & end()
}

// A colour for each type, pale, so that black letters are read on it.

const COLOURS: [&[u8]; 10] = [
    b"#b9d0e8", b"#f9d9a8", b"#c9e4c5", b"#e6c8e8", b"#f4b8b0", b"#d8d8d8", b"#b5e3e3", b"#efe79a",
    b"#d9c3ad", b"#c6c9f0",
];

pub(crate) fn of_kind(k: usize) -> bool {
    say::out::text(COLOURS[k.min(9)])
}

// Names as JSON strings.
use crate::{each, is_utf8};
use say::out;

// A hexadecimal digit.
fn digit(n: u8) -> u8 {
    b"0123456789abcdef"[(n % 16) as usize]
}

fn escaped(b: u8) -> bool {
    out::text(b"\\u00") & out::text(&[digit(b / 16), digit(b)])
}

fn byte(b: u8, whole: bool) -> bool {
    match b {
        b'"' | b'\\' => out::text(&[b'\\', b]),
        0..=31 => escaped(b),
        128..=255 if !whole => escaped(b),
        _ => out::text(&[b]),
    }
}

// Whether a byte is not to be escaped in UTF-8.
fn is_plain(b: u8) -> bool {
    !matches!(b, 0..=31 | b'"' | b'\\')
}

fn inside(name: &[u8]) -> bool {
    let whole = is_utf8(name);
    if whole && name.iter().all(|b| is_plain(*b)) {
        return out::text(name);
    }
    each(name, |b| byte(b, whole))
}

// A name, or null where there is none.
pub fn name(name: &[u8]) -> bool {
    if name.is_empty() {
        return out::text(b"null");
    }
    out::text(b"\"") & inside(name) & out::text(b"\"")
}

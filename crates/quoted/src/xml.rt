// Names as text of XML 1.0, and how much of one has room in a line of letters of one width.
ghost use Rattle.std.specs.Prelude.{◌≤◌, length};

use crate::{each, is_utf8};
use say::out;

// Whether a name can be written as it is, but for what is marked: UTF-8 has two characters, U+FFFE and U+FFFF, that XML hasn't.
pub(crate) fn is_whole(name: &[u8]) -> bool {
    is_utf8(name)
        && !name
            .windows(3)
            .any(|w| matches!(w, [0xef, 0xbf, 0xbe..=0xff]))
}

fn numbered(b: u8) -> bool {
    out::text(b"&#") & out::number(b as u64) & out::text(b";")
}

// A byte of a name that as a whole can be written as it is, or can't.
pub(crate) fn byte(b: u8, whole: bool) -> bool {
    match b {
        b'&' => out::text(b"&amp;"),
        b'<' => out::text(b"&lt;"),
        b'>' => out::text(b"&gt;"),
        b'"' => out::text(b"&quot;"),
        128..=255 if !whole => numbered(b),
        _ => out::text(&[b]),
    }
}

pub fn text(name: &[u8]) -> bool {
    let whole = is_whole(name);
    each(name, |b| byte(b, whole))
}

// How wide a byte makes a name, in letters: a character of three or four bytes counts as two, which no letter of one width is above.
fn width(b: u8, whole: bool) -> usize {
    match b {
        128..=191 if whole => 0,
        224..=255 if whole => 2,
        _ => 1,
    }
}

// Where what has room in so many letters ends: before a character, or at the name's end.
fn front(name: &[u8], whole: bool, room: usize) -> usize
    ensures { result ≤ length name.now }
{
    let mut left = room;
    for (i, b) in name.iter().enumerate() {
        let w = width(*b, whole);
        if w > left {
            return i;
        }
        left -= w;
    }
    name.len()
}

// As much of a name as has room in so many letters.
pub fn cut(name: &[u8], room: usize) -> bool {
    let whole = is_whole(name);
    each(&name[..front(name, whole, room)], |b| byte(b, whole))
}

// Whether any of it has room.
pub fn fits(name: &[u8], room: usize) -> bool {
    front(name, is_whole(name), room) > 0
}

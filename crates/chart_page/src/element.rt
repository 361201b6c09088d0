// Elements of SVG. What stands before an element's numbers, its word and its class, is the caller's.
use say::out;

// What stands before an attribute's number, and the number.
pub fn attribute(before: &[u8], n: u64) -> bool {
    out::text(before) & out::number(n) & out::text(b"\"")
}

// A text begins.
pub fn text(before: &[u8], x: u64, y: u64) -> bool {
    let place = out::text(before) & attribute(b" x=\"", x);
    place & attribute(b" y=\"", y) & out::text(b">")
}

pub fn text_end() -> bool {
    out::text(b"</text>\n")
}

pub fn words(before: &[u8], x: u64, y: u64, words: &[u8]) -> bool {
    text(before, x, y) & out::text(words) & text_end()
}

// A rectangle, but for its end.
pub fn rect(before: &[u8], x: u64, y: u64, width: u64, height: u64) -> bool {
    let place = out::text(before) & attribute(b" x=\"", x) & attribute(b" y=\"", y);
    place & attribute(b" width=\"", width) & attribute(b" height=\"", height)
}

pub fn end() -> bool {
    out::text(b"/>\n")
}

pub fn line(before: &[u8], x: u64, y: u64, right: u64, bottom: u64) -> bool {
    let start = out::text(before) & attribute(b" x1=\"", x) & attribute(b" y1=\"", y);
    start & attribute(b" x2=\"", right) & attribute(b" y2=\"", bottom) & end()
}

// What stands before a corner, and the corner.
fn corner(before: &[u8], x: u64, y: u64) -> bool {
    out::text(before) & out::number(x) & out::text(b",") & out::number(y)
}

// A bar, but for its end: by its corners, since browsers cut lengths off where they are above 33,554,429.
pub fn bar(before: &[u8], left: u64, top: u64, right: u64, bottom: u64) -> bool {
    let above = out::text(before) & corner(b" points=\"", left, top) & corner(b" ", right, top);
    above & corner(b" ", right, bottom) & corner(b" ", left, bottom) & out::text(b"\"")
}

// A line upright, from so far above the top; by its ends, for the same reason.
pub fn risen(before: &[u8], x: u64, up: u64, bottom: u64) -> bool {
    let start = out::text(before) & out::text(b" points=\"") & out::number(x);
    start & out::text(b",-") & out::number(up) & corner(b" ", x, bottom) & out::text(b"\"/>\n")
}

// Names within a quoted label of dot, which reads XML's marks as XML does, and in which a backslash is written twice.
use crate::{each, xml};
use say::out;

fn byte(b: u8, whole: bool) -> bool {
    match b {
        b'\\' => out::text(b"\\\\"),
        _ => xml::byte(b, whole),
    }
}

pub fn text(name: &[u8]) -> bool {
    let whole = xml::is_whole(name);
    each(name, |b| byte(b, whole))
}

// Names as they stand in JSON, in XML and in graphviz's dot: escaped, so that whatever a text calls its stages, the whole stays well formed. A name that is UTF-8
// is written as it is; of one that isn't each byte from 128 on is written as the character of that number. Whether the system took it no contract can say.
#![tactic(auto)]

pub mod dot;
pub mod json;
pub mod xml;

// Whether bytes are UTF-8 (RFC 3629): no character longer than need be, none of the surrogates, none above U+10FFFF.
fn is_utf8(name: &[u8]) -> bool {
    std::str::from_utf8(name).is_ok()
}

// Each byte of a name, written as its form wants it. After a failure the others are tried all the same.
fn each<F: Fn(u8) -> bool>(name: &[u8], write: F) -> bool
    requires { F.IsAlwaysCallable write }
{
    let mut written = true;
    for b in name {
        written &= write(*b);
    }
    written
}

// The names of a board text's types and stages.
use crate::out;
use board::Names;
use texts::part;

// The name of type k; nothing where it has none.
pub fn of_kind(t: &[u8], names: Names, k: usize) -> &[u8] {
    if k < names.kinds && k < 10 {
        return part(t, names.kind[k], names.kind_end[k]);
    }
    b""
}

pub fn of_stage(t: &[u8], names: Names, v: usize) -> &[u8] {
    if v < names.stages && v < 128 {
        return part(t, names.stage[v], names.stage_end[v]);
    }
    b""
}

// A name; where there is none, a letter or none and the number.
pub(crate) fn name(name: &[u8], letter: &[u8], i: usize) -> bool {
    if !name.is_empty() {
        return out::text(name);
    }
    out::text(letter) & out::number(i as u64)
}

// What an answer calls stage v: its name, or its number where it has none.
pub fn stage(t: &[u8], names: Names, v: usize) -> bool {
    name(of_stage(t, names, v), b"", v)
}

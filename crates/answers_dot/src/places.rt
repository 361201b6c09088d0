// Where each stage stands on the path.

// The place of each stage that stands on the path, the first 0.
pub(crate) fn along(path: &[u8]) -> [Option<usize>; 128] {
    let mut place = [None; 128];
    for (i, v) in path.iter().enumerate() {
        if *v < 128 {
            place[*v as usize] = Some(i);
        }
    }
    place
}

pub(crate) fn of(place: &[Option<usize>; 128], v: usize) -> Option<usize> {
    if v < 128 { place[v] } else { None }
}

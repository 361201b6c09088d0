// The text of n vertices, from their times and the table of their predecessors.
ghost use Rattle.std.specs.Prelude.{◌≡◌, ℕ, ◌≤◌, ◌<◌, length, get_or};
ghost use Rattle.std.proofs.lemmas.List.Edits.{sets};
ghost use Rattle.stg_writer.specs.Before.{text_in};

pub(crate) fn text_length(n: usize, before: &[[u64; 2]; 128], wcet: &[u32; 128]) -> usize
    requires { (2 ≤ n) × (n ≤ 128) × ((v : ℕ) → v < n → get_or wcet.now v 0 < 10000000) }
    ensures { result ≡ length (text_in n before.now wcet.now) }
{
    let mut size = stg_line::count_length(n - 2);
    for v in 0..n {
        let set = sets::row(before, v);
        let more = stg_line::task_length(v, wcet[v] as usize, set);
        size += more;
    }
    size
}

pub(crate) fn put_text(out: &mut [u8], n: usize, before: &[[u64; 2]; 128], wcet: &[u32; 128])
    requires { (2 ≤ n) × (n ≤ 128) × ((v : ℕ) → v < n → get_or wcet.now v 0 < 10000000) × (length (text_in n before.now wcet.now) ≤ length out.old) }
    ensures { out.new ≡ sets out.old 0 (text_in n before.now wcet.now) }
{
    let mut i = stg_line::put_count(out, n - 2);
    for v in 0..n {
        let set = sets::row(before, v);
        let next = stg_line::put_task(out, i, v, wcet[v] as usize, set);
        i = next;
    }
}

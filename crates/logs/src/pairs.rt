// The keys of the records, vertex by vertex. A record is one number and no struct, so that its order is that of numbers and no other is needed.
ghost use Rattle.std.specs.Prelude.{◌≡◌, ℕ, ◌≤◌, ◌<◌, length};
ghost use Rattle.times.specs.Times.{times_of};
ghost use Rattle.remains.specs.Remains.{place};
ghost use Rattle.logs.specs.Keys.{Gathered};

// A vertex that has a time has a stop at its finish instant, and a start so many ticks before; one that has none has no record.
pub(crate) fn gather(times: &[u32], n: usize, finishes: &[u32; 128], keys: &mut [u64; 256]) -> usize
    requires n_bound { (n ≤ 128) × (length times.now ≡ n) × (length keys.old ≡ 256) }
    requires by_index { (v : ℕ) → v < n → (times_of times.now v ≤ place finishes.now v) × (place finishes.now v ≤ 128000000) }
    ensures { Gathered (times_of times.now) (place finishes.now) n result keys.new }
{
    let mut m = 0usize;
    for (v, time) in times.iter().enumerate() {
        let time = *time as u64;
        if 0 < time {
            let stop = 512 * finishes[v] as u64 + v as u64;
            keys[m] = stop;
            keys[m + 1] = stop + 256 - 512 * time;
            m += 2;
        }
    }
    m
}

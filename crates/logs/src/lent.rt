// The records in the room that the caller lends.
ghost use Rattle.std.specs.Prelude.{◌≡◌, ◌++◌, ℕ, ◌*◌, ◌/◌, ◌%◌, ◌≤◌, ◌<◌, length, drop, eqb};
ghost use Rattle.model.specs.Places.{pick, table};
ghost use Rattle.remains.specs.Remains.{place};
ghost use Rattle.recorded.specs.LogOf.{log_record, bytes_of};
ghost use Rattle.logs.specs.Keys.{BOUND};

fn kind_of(key: u64) -> u8
    ensures { result ≡ pick (eqb (key / 256 % 2) 1) 0x53 0x50 }
{
    if key / 256 % 2 == 1 { b'S' } else { b'P' }
}

// The 8 bytes of the record with this key: the instant's low byte first.
fn record(key: u64) -> [u8; 8]
    requires { key < BOUND }
    ensures { result ≡ log_record key }
{
    let kind = kind_of(key);
    let vertex = (key % 256) as u8;
    let [low, second, third, high] = ((key / 512) as u32).to_le_bytes();
    [kind, vertex, 0, 0, low, second, third, high]
}

// The first m records into the room; its other places keep what they held.
pub(crate) fn hand_over(keys: &[u64; 256], m: usize, out: &mut [u8])
    requires m_bound { (m ≤ 256) × (8 * m ≤ length out.old) }
    requires by_index { (i : ℕ) → i < m → place keys.now i < BOUND }
    ensures { out.new ≡ bytes_of (table (place keys.now) m) ++ drop (8 * m) out.old }
{
    for k in 0..m {
        let r = record(keys[k]);
        copies::copy(&r, &mut out[8 * k..]);
    }
}

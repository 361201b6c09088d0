// A list that a caller lends, and what is handed over in it.
#![tactic(auto)]

ghost use Rattle.std.specs.Prelude.{◌≡◌, ◌++◌, ◌≤◌, length, drop};

// The values to the front of the list; its other places keep what they held.
pub fn hand_over<T: Copy>(values: &[T], out: &mut [T])
    requires { length values.now ≤ length out.old }
    ensures { out.new ≡ values.now ++ drop (length values.now) out.old }
{
    out[..values.len()].copy_from_slice(values);
}

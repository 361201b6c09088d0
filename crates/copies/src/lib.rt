// What the library has for lists of one length, for a list that is no longer than the room it goes to.
#![tactic(auto)]

ghost use Rattle.std.specs.Prelude.{◌≡◌, ◌≤◌, ◌++◌, length, drop};

// Copies `from` to the front of `to`; what lies behind it stays.
pub fn copy(from: &[u8], to: &mut [u8])
    requires { length from.now ≤ length to.old }
    ensures len { length to.new ≡ length to.old }
    ensures after { to.new ≡ from.now ++ drop (length from.now) to.old }
{
    to[..from.len()].copy_from_slice(from);
}

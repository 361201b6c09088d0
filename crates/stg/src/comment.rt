// A line to skip.
ghost use Rattle.std.specs.Prelude.{◌≤◌, length};
ghost use Rattle.stg.specs.Rows.{Commented};

// The place of the line after the one that begins at `at`, if that is to be skipped: # first, after any blanks and tabs.
pub(crate) fn comment_at(text: &[u8], at: usize) -> Option<usize>
    requires { at ≤ length text.now }
    ensures { Commented text.now at result }
{
    let p = stg_scan::skip(text, at);
    if p == text.len() {
        return None;
    }
    if text[p] != b'#' {
        return None;
    }
    let q = stg_scan::feed_at(text, p)?;
    Some(q + 1)
}

//! Blanks and comments.

ghost use Rattle.std.specs.Prelude.{◌≡◌, ◌≤◌, length, drop, true, false};
ghost use Rattle.rl_grammar.specs.Lexer.{behind_gap};

/// Where the line of a comment ends, behind its end of line; or the end of the bytes.
pub(crate) fn comment_end(bytes: &[u8], at: usize) -> usize
    requires { at ≤ length bytes.now }
    ensures behind { behind_gap true (drop at bytes.now) ≡ behind_gap false (drop result bytes.now) }
    ensures after { at ≤ result }
    ensures within { result ≤ length bytes.now }
{
    let mut i = at;
    while i < bytes.len() {
        let b = bytes[i];
        i += 1;
        if b == b'\n' {
            return i;
        }
    }
    i
}

/// The place of the first byte from `at` on that stands in no blank or comment; or the end of the bytes.
pub fn gap_end(bytes: &[u8], at: usize) -> usize
    requires { at ≤ length bytes.now }
    ensures behind { drop result bytes.now ≡ behind_gap false (drop at bytes.now) }
    ensures after { at ≤ result }
    ensures within { result ≤ length bytes.now }
{
    let mut i = at;
    while i < bytes.len() {
        match bytes[i] {
            9 | 10 | 12 | 13 | 32 => i += 1,
            b'%' => i = comment_end(bytes, i + 1),
            _ => return i,
        }
    }
    i
}

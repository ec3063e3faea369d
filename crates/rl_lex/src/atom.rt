//! Names, strings and integers: where each ends.

ghost use Rattle.std.specs.Prelude.{◌≡◌, ◌<◌, ◌≤◌, ◌^◌, ◌⊎◌, ℕ, List, length, slice_index, true, nat_le, nat_lt, if◌then◌else◌};
ghost use Rattle.rl_tree.specs.Bytes.{is_digit, is_letter};
ghost use Rattle.rl_grammar.specs.Lexer.{has_no_escape};
ghost use Rattle.rl_lex.specs.Scans.{IsDigitsScan, IsNameScan, IsNameStep, IsTextScan, IsTextStep};

use rl_text::bytes::is_name_byte;

/// The most bytes of a name.
const LONGEST_NAME: usize = 255;

/// The most bytes of a string.
const LONGEST_TEXT: usize = 65_535;

/// Where a spelling ends; or where it does not go on.
#[derive(Clone, Copy)]
pub(crate) enum Scan {
    Ends(usize),
    Bad(usize),
}

/// Whether no byte is `!`.
pub(crate) fn is_bare(text: &[u8]) -> bool
    ensures { result ≡ has_no_escape text.now }
{
    for b in text {
        if *b == b'!' {
            return false;
        }
    }
    true
}

/// What a byte is in a word: the word goes on behind it, has ended, or does not go on with the byte at this place.
#[derive(Clone, Copy)]
pub(crate) enum Character {
    Next(usize),
    EndsAt(usize),
    NoPlace(usize),
}

/// `!` and the byte behind it in a name that has so many bytes.
fn escaped_character(bytes: &[u8], at: usize, count: usize) -> Character
    requires here { at < length bytes.now }
    requires escape { slice_index bytes.now at ≡ 33 }
    ensures { (name : List ℕ) → length name ≡ count → count ≤ 255 → IsNameStep bytes.now at name result }
{
    if count == LONGEST_NAME {
        return Character::NoPlace(at);
    }
    if at + 1 == bytes.len() {
        return Character::NoPlace(at + 1);
    }
    Character::Next(at + 2)
}

/// What stands at `at` behind so many bytes of a name.
fn name_character(bytes: &[u8], at: usize, count: usize) -> Character
    requires { at < length bytes.now }
    ensures { (name : List ℕ) → length name ≡ count → count ≤ 255 → IsNameStep bytes.now at name result }
{
    let b = bytes[at];
    if b == b'!' {
        return escaped_character(bytes, at, count);
    }
    if !is_name_byte(b) {
        return Character::EndsAt(at);
    }
    if count == LONGEST_NAME {
        return Character::NoPlace(at);
    }
    Character::Next(at + 1)
}

/// Where the name ends that begins at `at`.
pub(crate) fn name_end(bytes: &[u8], at: usize) -> Scan
    requires here { at < length bytes.now }
    requires begins { (is_letter (slice_index bytes.now at) ≡ true) ⊎ (slice_index bytes.now at ≡ 33) }
    ensures { IsNameScan bytes.now at result }
{
    let mut i = at;
    let mut count = 0usize;
    while i < bytes.len() {
        match name_character(bytes, i, count) {
            Character::Next(to) => i = to,
            Character::EndsAt(to) => return Scan::Ends(to),
            Character::NoPlace(k) => return Scan::Bad(k),
        }
        count += 1;
    }
    Scan::Ends(i)
}

/// A `"` behind so many bytes of a string: it ends it, or is the first of two.
fn quote_character(bytes: &[u8], at: usize, count: usize) -> Character
    requires here { at < length bytes.now }
    requires quote { slice_index bytes.now at ≡ 34 }
    ensures { (text : List ℕ) → length text ≡ count → count ≤ 65535 → IsTextStep bytes.now at text result }
{
    let next = at + 1;
    if next == bytes.len() || bytes[next] != b'"' {
        return Character::EndsAt(next);
    }
    if count == LONGEST_TEXT {
        return Character::NoPlace(next);
    }
    Character::Next(at + 2)
}

/// What stands at `at` behind so many bytes of a string.
fn text_character(bytes: &[u8], at: usize, count: usize) -> Character
    requires { at < length bytes.now }
    ensures { (text : List ℕ) → length text ≡ count → count ≤ 65535 → IsTextStep bytes.now at text result }
{
    if bytes[at] == b'"' {
        return quote_character(bytes, at, count);
    }
    if count == LONGEST_TEXT {
        return Character::NoPlace(at);
    }
    Character::Next(at + 1)
}

/// Where the string ends whose first `"` stands at `at`.
pub(crate) fn text_end(bytes: &[u8], at: usize) -> Scan
    requires here { at < length bytes.now }
    requires begins { slice_index bytes.now at ≡ 34 }
    ensures { IsTextScan bytes.now at result }
{
    let mut i = at + 1;
    let mut count = 0usize;
    while i < bytes.len() {
        match text_character(bytes, i, count) {
            Character::Next(to) => i = to,
            Character::EndsAt(to) => return Scan::Ends(to),
            Character::NoPlace(k) => return Scan::Bad(k),
        }
        count += 1;
    }
    Scan::Bad(i)
}

/// Whether a number is one of Lisp text: from -2^59 to 2^59 - 1.
fn is_in_range(minus: bool, n: u64) -> bool
    ensures { result ≡ (if minus then nat_le n (2 ^ 59) else nat_lt n (2 ^ 59)) }
{
    if minus { n <= 1 << 59 } else { n < 1 << 59 }
}

/// Where the digits end of which the first stands at `at`.
pub(crate) fn digits_end(bytes: &[u8], at: usize, minus: bool) -> Scan
    requires here { at < length bytes.now }
    requires begins { is_digit (slice_index bytes.now at) ≡ true }
    ensures { IsDigitsScan minus bytes.now at result }
{
    let mut n = u64::from(bytes[at] - b'0');
    let mut i = at + 1;
    while i < bytes.len() {
        let b = bytes[i];
        if !b.is_ascii_digit() {
            return Scan::Ends(i);
        }
        let more = 10 * n + u64::from(b - b'0');
        if !is_in_range(minus, more) {
            return Scan::Bad(i);
        }
        n = more;
        i += 1;
    }
    Scan::Ends(i)
}

//! Classes of bytes.

ghost use Rattle.std.specs.Prelude.{◌≡◌, ◌≤◌, ◌<◌, length};
ghost use Rattle.std.specs.List.{prefix_len};
ghost use Rattle.fzn_lex.specs.Classes.{digit_of, is_digit, is_letter, is_word, is_blank, is_inline};

// What the byte is worth as a digit, and 16 where it is none.
pub(crate) fn digit(byte: u8) -> u8
    ensures value { result ≡ digit_of byte }
    ensures within { result ≤ 16 }
{
    if byte >= b'0' && byte <= b'9' {
        return byte - b'0';
    }
    if byte >= b'a' && byte <= b'f' {
        return byte - b'a' + 10;
    }
    if byte >= b'A' && byte <= b'F' {
        return byte - b'A' + 10;
    }
    16
}

#[tactic(auto, unfolding(crate::specs::Classes::is_digit))]
pub(crate) fn has_digit(base: u8, byte: u8) -> bool
    ensures { result ≡ is_digit base byte }
{
    digit(byte) < base
}

#[tactic(auto, unfolding(crate::specs::Classes::is_letter))]
pub(crate) fn begins_name(byte: u8) -> bool
    ensures { result ≡ is_letter byte }
{
    byte >= b'a' && byte <= b'z' || byte >= b'A' && byte <= b'Z' || byte == b'_'
}

#[tactic(auto, unfolding(crate::specs::Classes::is_word))]
fn continues_name(byte: u8) -> bool
    ensures { result ≡ is_word byte }
{
    begins_name(byte) || has_digit(10, byte)
}

#[tactic(auto, unfolding(crate::specs::Classes::is_blank))]
pub(crate) fn leaves_blank(byte: u8) -> bool
    ensures { result ≡ is_blank byte }
{
    byte == b' ' || byte == b'\t' || byte == b'\r' || byte == b'\n'
}

#[tactic(auto, unfolding(crate::specs::Classes::is_inline))]
fn stays_inline(byte: u8) -> bool
    ensures { result ≡ is_inline byte }
{
    byte != b'\n'
}

// The number of digits at the head.
pub(crate) fn digit_run(base: u8, bytes: &[u8]) -> usize
    ensures value { result ≡ prefix_len (is_digit base) bytes.now }
    ensures within { result ≤ length bytes.now }
{
    bytes.iter().take_while(|b| has_digit(base, **b)).count()
}

// The number of bytes at the head that a name may have.
pub(crate) fn word_run(bytes: &[u8]) -> usize
    ensures value { result ≡ prefix_len is_word bytes.now }
    ensures within { result ≤ length bytes.now }
{
    bytes.iter().take_while(|b| continues_name(**b)).count()
}

// The number of bytes before the end of the line.
pub(crate) fn line_run(bytes: &[u8]) -> usize
    ensures value { result ≡ prefix_len is_inline bytes.now }
    ensures within { result ≤ length bytes.now }
{
    bytes.iter().take_while(|b| stays_inline(**b)).count()
}

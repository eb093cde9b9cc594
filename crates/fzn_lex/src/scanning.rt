//! Reading in a slice, beyond its end too.

ghost use Rattle.std.specs.Prelude.{◌≡◌, ◌≤◌, length, take, drop, get_or};

// The byte at a place, and 0, which no piece has outside texts and comments, past the end.
pub(crate) fn byte_at(bytes: &[u8], at: usize) -> u8
    ensures { result ≡ get_or bytes.now at 0 }
{
    if at < bytes.len() { bytes[at] } else { 0 }
}

// The bytes from a place on, and none past the end.
pub(crate) fn after(bytes: &[u8], at: usize) -> &[u8]
    ensures { result.now ≡ drop at bytes.now }
{
    if at < bytes.len() { &bytes[at..] } else { &[] }
}

// The bytes before a place.
pub(crate) fn before(bytes: &[u8], at: usize) -> &[u8]
    requires { at ≤ length bytes.now }
    ensures { result.now ≡ take at bytes.now }
{
    &bytes[..at]
}

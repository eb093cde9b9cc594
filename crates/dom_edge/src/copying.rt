ghost use Rattle.std.specs.Prelude.{◌≡◌, ◌<◌, ◌≤◌, length};
ghost use Rattle.dom_edge.specs.File.{GivesPart};

/// Copies as much of a file from a place on as the buffer takes, and says how much.
pub(crate) fn copy_part(file: &[u8], at: u64, buf: &mut [u8]) -> usize
    requires { 0 < length buf.old }
    ensures within { result ≤ length buf.new }
    ensures part { GivesPart file.now at result buf.new }
{
    let start = (at as usize).min(file.len());
    let n = (file.len() - start).min(buf.len());
    buf[..n].copy_from_slice(&file[start..start + n]);
    n
}

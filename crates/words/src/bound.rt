// The bound on the bytes of a line.
ghost use Rattle.std.specs.Prelude.{◌≡◌};
ghost use Rattle.words.specs.Words.{too_long};

pub const LONGEST_LINE: usize = 65_536;

// Whether a line has more bytes than may be read: tested before anything else.
pub fn too_long(line: &[u8]) -> bool
    ensures { result ≡ too_long line.now }
{
    line.len() > LONGEST_LINE
}

// Versions, read from a text.
ghost use Rattle.std.specs.Prelude.{◌≡◌};
ghost use Rattle.std.specs.Option.{option_map};
ghost use Rattle.version.specs.Reader.{parsed};
ghost use Rattle.version.specs.Law.{Tells};
ghost use Rattle.version.specs.View.{seen};

use crate::cuts::cut;
use crate::fields::Part;
use crate::number::read_core;
use crate::version::Version;

// The version that the text is. None: it is no version, or one of its three numbers is 2^64 or more.
// `told` works it out, and `tells` says that it is what the standard says.
pub fn parse_version(text: &[u8]) -> Option<Version<'_>>
    ensures told { option_map seen result ≡ parsed text.now }
    ensures tells { Tells text.now (option_map seen result) }
{
    let (rest, build) = cut(text, b'+');
    let (core, pre) = cut(rest, b'-');
    let core = read_core(core)?;
    if !Part::PreRelease.takes_all(pre) || !Part::Build.takes_all(build) {
        return None;
    }
    Some(Version { core, pre, build })
}

// Versions.
ghost use Rattle.std.specs.Prelude.{◌≡◌, true};
ghost use Rattle.version.specs.Grammar.{every};
ghost use Rattle.version.specs.Reader.{released, fields_in};

use crate::number::Core;

// The pre-release and the build metadata are parts of the text, without the `-` and the `+`, if they stand there. `proper` says that
// what is kept as a pre-release is one.
#[derive(Clone, Copy)]
pub struct Version<'a> {
    pub core: Core,
    pub pre: Option<&'a [u8]>,
    pub build: Option<&'a [u8]>,
    pub ghost proper: { every released (fields_in pre) ≡ true },
}

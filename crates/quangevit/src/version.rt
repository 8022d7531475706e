// The version of the library. CHANGELOG.md says when its parts rise.
ghost use Rattle.std.specs.Prelude.{◌≡◌};
ghost use Rattle.quangevit.specs.Version.{version};

// What the ends answer.
const EDITION: u32 = 8;

// The code, where the answers are the same.
const REVISION: u32 = 0;

// Answers 100 times the edition, plus the revision: 800 is version 8.00.
#[unsafe(no_mangle)]
pub extern "C" fn quangevit_version() -> u32
    ensures { result ≡ version }
{
    100 * EDITION + REVISION
}

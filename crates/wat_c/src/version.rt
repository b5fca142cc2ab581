//! Version of the library.
ghost use Rattle.std.specs.Prelude.{◌≡◌};

/// Returns the version of the library: 10000 times the major version, plus 100 times the minor
/// version, plus the patch level. It equals `WAT_VERSION` of the header of this version.
#[unsafe(no_mangle)]
pub extern "C" fn wat_version() -> u32
    ensures { result ≡ 100 }
{
    100
}

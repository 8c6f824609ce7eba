// Which library a program was linked with, so that it can be compared with the header that it was compiled with. `include/rdoq.h` declares the call.
#![tactic(auto)]

ghost use Rattle.std.specs.Prelude.{◌≡◌};
ghost use Rattle.c_version.specs.Version.{version_number};

// The version as one number: 1,000,000 for each major, 1,000 for each minor, 1 for each patch.
#[unsafe(no_mangle)]
pub extern "C" fn rdoq_version() -> u32
    ensures { result ≡ version_number }
{
    1000
}

// The version for C.
ghost use Rattle.istrolf.specs.Version.{VersionPromise};

// The version as one number: 10000 for 1.0.0.
#[unsafe(no_mangle)]
pub extern "C" fn istrolf_version() -> u32
    ensures { VersionPromise result }
{
    istrolf::version::istrolf_version()
}

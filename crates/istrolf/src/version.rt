// The version for C.
ghost use Rattle.istrolf.specs.Version.{VersionPromise};

// The version as one number: 10000 for 1.0.0.
pub fn istrolf_version() -> u32
    ensures { VersionPromise result }
{
    10_000
}

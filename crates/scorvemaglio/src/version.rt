// The version of the boundary, told as a number and by a name.
ghost use Rattle.std.specs.Prelude.{◌≡◌};
ghost use Rattle.scorvemaglio.specs.Version.{version};

const VERSION: u32 = 5;

#[unsafe(no_mangle)]
pub extern "C" fn scorve_version() -> u32
    ensures { result ≡ version }
{
    VERSION
}

// Does nothing: an object that was compiled with the header of another version refers to another name, and does not link.
#[unsafe(no_mangle)]
pub extern "C" fn scorve_abi_5() {}

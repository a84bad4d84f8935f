//! Which declarations the library has. `include/stir.h` has the same number.
ghost use Rattle.std.specs.Prelude.{◌≡◌};

/// The version of these declarations.
const ABI: u64 = 2;

/// The version of the declarations: a caller that was made for another one calls nothing else.
#[unsafe(no_mangle)]
pub extern "C" fn stir_abi() -> u64
    ensures { result ≡ 2 }
{
    ABI
}

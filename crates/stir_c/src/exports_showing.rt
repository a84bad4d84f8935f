//! What C calls to see what certificates say. `include/stir.h` declares the same.
ghost use Rattle.std.specs.Prelude.{◌≡◌, ◌≢◌, ◌≤◌};
ghost use Rattle.stir_c.specs.Showing.{IsNoChain, ShownInto, ShowsMore, ToldShown};

use crate::said::Said;
use crate::showing::{Unshown, show};
use crate::writing::{Text, told_text};
use std::alloc::Global;

/// Shows a chain of certificates, at most six one after another in DER: writes the lines of the command `show`. Kind 0:
/// they are written. Kind 2: the bytes are no such chain. Kind 4: there is no room for the lines.
#[unsafe(no_mangle)]
pub extern "C" fn stir_show(alloc: Global, chain: &[u8], room: &mut [u8]) -> Said
    ensures kinds { result.kind ≤ 4 }
    ensures never_refused { result.kind ≢ 1 }
    ensures shown { result.kind ≡ 0 → ShownInto chain.now room.old room.new result }
    ensures faulty { result.kind ≡ 2 → (result.input ≡ 7) × IsNoChain chain.now }
    ensures no_room { result.kind ≡ 4 → ShowsMore chain.now room.old result }
    ensures as_was { 1 ≤ result.kind → room.new ≡ room.old }
{
    told_shown(show(alloc, chain), room)
}

/// The lines, written into the room and told; or the fault.
fn told_shown(came: Result<Text, Unshown>, room: &mut [u8]) -> Said
    ensures { ToldShown came room.old room.new result }
{
    match came {
        Ok(text) => told_text(&text, room),
        Err(why) => Said::unshown(why),
    }
}

//! What C calls to open what every call goes by. `include/stir.h` declares the same.
ghost use Rattle.std.specs.Prelude.{◌≡◌, ◌≢◌, ◌≤◌, IfErr, IfOk, None, Some};
ghost use Rattle.std.specs.Arc.{arc_value};
ghost use Rattle.open_calls.specs.Worlds.{IsFaulty};
ghost use Rattle.stir_c.specs.GivenWorlds.{digits_given, world_given};
ghost use Rattle.stir_c.specs.Handles.{IsWorldOn, world_held};
ghost use Rattle.stir_c.specs.Saying.{IsOneOf};
ghost use Rattle.stir_c.specs.Told.{plain};
ghost use Rattle.stir_c.specs.WorldFaults.{IsBadWorld};

use crate::handles::WorldHandle;
use crate::said::Said;
use open_calls::{OpenWorld, WorldFault, WorldSetting};
use std::alloc::{AllocError, Global};
use std::sync::Arc;

/// How calls are judged: C's `stir_settings`.
#[repr(C)]
#[derive(Clone, Copy)]
pub struct Settings {
    /// How many seconds a PASSporT may be past, and how many ahead.
    pub past: u64,
    pub future: u64,
    /// The digits of the own country code in ASCII, and how many they are.
    pub country: [u8; 3],
    pub country_size: u8,
    /// How many digits a national number has.
    pub national: u8,
}

/// Opens a world by settings, trust anchors one after another in DER, and the lines of a code table. Kind 0: it is in
/// `out`. Kind 2: the input of this number is outside its grammar or its limits; they are looked at in this order: 1
/// the settings, 4 the anchors, 5 the table.
#[unsafe(no_mangle)]
pub extern "C" fn stir_world_open(
    alloc: Global,
    settings: &Settings,
    anchors: &[u8],
    table: &[u8],
    out: &mut WorldHandle,
) -> Said
    ensures kinds { result.kind ≤ 3 }
    ensures never_refused { result.kind ≢ 1 }
    ensures no_more { result ≡ plain result.kind result.input }
    ensures opened { result.kind ≡ 0 → IsWorldOn (world_given settings.now anchors.now table.now) out.new }
    ensures faulty { result.kind ≡ 2 → IsBadWorld (world_given settings.now anchors.now table.now) result.input }
    ensures as_was { 2 ≤ result.kind → world_held out.new ≡ world_held out.old }
{
    match read(alloc, settings, anchors, table) {
        Ok(handle) => {
            *out = handle;
            Said::done()
        }
        Err(fault) => Said::world_fault(fault),
    }
}

/// A handle of the world that these are, or the fault.
fn read(
    alloc: Global,
    settings: &Settings,
    anchors: &[u8],
    table: &[u8],
) -> Result<WorldHandle, WorldFault>
    ensures read { IfOk result (IsWorldOn (world_given settings.now anchors.now table.now)) }
    ensures fault { IfErr result (IsFaulty (world_given settings.now anchors.now table.now)) }
{
    let setting = WorldSetting {
        past: settings.past,
        future: settings.future,
        country: digits(settings),
        national: settings.national,
    };
    let world = match OpenWorld::read(alloc, &setting, anchors, table) {
        Ok(world) => world,
        Err(fault) => return Err(fault),
    };
    match shared(alloc, world) {
        Ok(handle) => Ok(handle),
        Err(_) => Err(WorldFault::Memory),
    }
}

/// A new handle of a world. `AllocError` is the only error.
fn shared(alloc: Global, world: OpenWorld) -> Result<WorldHandle, AllocError>
    ensures { IfOk result (λ h. world_held h ≡ Some world) }
{
    let world = Arc::new(alloc, world)?;
    WorldHandle::on(alloc, world)
}

/// The digits of the country code; none if there are to be more than three.
fn digits(settings: &Settings) -> &[u8]
    ensures { result.now ≡ digits_given settings.now.country_size settings.now.country }
{
    let size = settings.country_size as usize;
    if size > 3 {
        return &[];
    }
    &settings.country[..size]
}

/// Opens another handle of the same world, for another thread. Kind 0: it is in `out`. Kind 5: the first is closed.
#[unsafe(no_mangle)]
pub extern "C" fn stir_world_share(
    alloc: Global,
    world: &mut WorldHandle,
    out: &mut WorldHandle,
) -> Said
    ensures kinds { IsOneOf 0 3 5 result }
    ensures stays { world_held world.new ≡ world_held world.old }
    ensures shared { result.kind ≡ 0 → world_held out.new ≡ world_held world.old }
    ensures open { result.kind ≡ 0 → world_held world.old ≢ None }
    ensures closed { result.kind ≡ 5 → world_held world.old ≡ None }
    ensures as_was { 3 ≤ result.kind → world_held out.new ≡ world_held out.old }
{
    let owner = match world.take(alloc) {
        Some(owner) => owner,
        None => return Said::closed(),
    };
    let another = share(alloc, owner.world());
    *world = WorldHandle::of(owner);
    match another {
        Ok(another) => {
            *out = another;
            Said::done()
        }
        Err(_) => Said::no_memory(),
    }
}

/// A new handle of a world that is shared. `AllocError` is the only error.
fn share(alloc: Global, world: &Arc<OpenWorld, Global>) -> Result<WorldHandle, AllocError>
    ensures { IfOk result (λ h. world_held h ≡ Some (arc_value world.now)) }
{
    let world = Arc::try_clone(world)?;
    WorldHandle::on(alloc, world)
}

/// Closes a handle of a world. To close a closed one does nothing.
#[unsafe(no_mangle)]
pub extern "C" fn stir_world_close(alloc: Global, world: &mut WorldHandle)
    ensures { world_held world.new ≡ None }
{
    *world = WorldHandle::empty(alloc);
}

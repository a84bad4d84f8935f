//! Laws. A function here does nothing: its clause is the law.
ghost use Rattle.once_run.specs.Claims.{RoomForAll};

/// No line is full if there are at most as many different tickets as a level has slots.
pub fn room_law()
    ensures { RoomForAll }
{}

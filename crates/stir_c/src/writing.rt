//! A text written where the caller has room.
ghost use Rattle.stir_c.specs.Written.{HasWritten};
ghost use Rattle.stir_c.specs.WrittenText.{ToldText};

use crate::said::Said;

/// A text that is to be written.
#[derive(Drop)]
pub(crate) struct Text {
    pub(crate) bytes: Vec<u8>,
}

/// Writes a text into the room, and leaves what is after it; false if the room is too small, and then it is left as it
/// was.
pub(crate) fn write(text: &[u8], room: &mut [u8]) -> bool
    ensures { HasWritten text.now room.old room.new result }
{
    if text.len() > room.len() {
        return false;
    }
    let (first, _) = room.split_at_mut(text.len());
    first.copy_from_slice(text);
    true
}

/// A text, written into the room and told.
pub(crate) fn told_text(text: &Text, room: &mut [u8]) -> Said
    ensures { ToldText text.now.bytes.items room.old room.new result }
{
    let bytes = text.bytes.as_slice();
    let written = write(bytes, room);
    Said::written(bytes.len(), written)
}

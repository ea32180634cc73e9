//! Copies into C's memory.

ghost use Rattle.std.specs.Prelude.{◌≡◌, length};
ghost use Rattle.vupresal_c.specs.Copies.{HoldsText, filled};

/// Copies as many bytes as the room takes; the number of all bytes.
pub(crate) fn copy(bytes: &[u8], room: &mut [u8]) -> usize
    ensures count { result ≡ length bytes.now }
    ensures filled { room.new ≡ filled bytes.now room.old }
{
    let count = bytes.len().min(room.len());
    room[..count].copy_from_slice(&bytes[..count]);
    bytes.len()
}

/// Copies as much of the text as the room takes, in whole characters, and a zero after it. Without room, nothing.
pub(crate) fn copy_text(text: &str, room: &mut [u8])
    ensures { HoldsText text.now room.old room.new }
{
    if room.is_empty() {
        return;
    }
    let count = text.floor_char_boundary(room.len() - 1);
    room[..count].copy_from_slice(&text.as_bytes()[..count]);
    room[count] = 0;
}

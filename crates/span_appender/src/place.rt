//! Which file a text goes to: when a new one begins, and how much of a text goes into it.
ghost use Rattle.std.specs.Prelude.{◌≡◌, ◌+◌, ◌-◌, ◌≤◌, ◌<◌, ◌^◌, ◌↔◌, IsTrue, length, max};
ghost use Rattle.span_appender.specs.Place.{EndsWell, Rolls, next_after, place_after, share_of};

use crate::lines::{is_line, whole_lines};
use crate::rotation::Rotation;

/// Which file is written to, and how far.
#[derive(Clone, Copy, Debug, PartialEq, Eq)]
pub struct Place {
    /// The file's number.
    pub number: u32,
    /// The day on which it was begun, counted from 1970-01-01.
    pub day: u64,
    /// How many bytes it has.
    pub size: u64,
    /// Whether no line is begun at its end.
    pub whole: bool,
}

/// How many bytes of a text go into a file of a size: all, or the whole lines for which there is
/// room, and in an empty file at least a part of a line.
pub fn share(rotation: &Rotation, size: u64, text: &[u8]) -> usize
    ensures value { result ≡ share_of rotation.now.max_bytes size text.now }
    ensures within { result ≤ length text.now }
    ensures room { size + result ≤ max size rotation.now.max_bytes }
    ensures split { EndsWell rotation.now.max_bytes size text.now result }
{
    let room = rotation.max_bytes.saturating_sub(size);
    if text.len() as u64 <= room {
        return text.len();
    }
    let room = room as usize;
    let whole = whole_lines(&text[..room]);
    if size == 0 && whole == 0 { room } else { whole }
}

/// Whether a text begins a new file.
pub fn rolls(rotation: &Rotation, place: &Place, today: u64, text: &[u8]) -> bool
    ensures { IsTrue result ↔ Rolls rotation.now place.now today text.now }
{
    if rotation.daily && place.whole && place.day < today {
        return true;
    }
    share(rotation, place.size, text) == 0
}

/// The place in a new file.
pub fn next_place(place: &Place, today: u64) -> Place
    requires { place.now.number < 2 ^ 32 - 1 }
    ensures { result ≡ next_after place.now today }
{
    Place {
        number: place.number + 1,
        day: today,
        size: 0,
        whole: true,
    }
}

/// The place after the first bytes of a text are written there.
pub fn written_place(place: &Place, text: &[u8]) -> Place
    requires { place.now.size + length text.now < 2 ^ 64 }
    ensures { result ≡ place_after place.now text.now }
{
    Place {
        number: place.number,
        day: place.day,
        size: place.size + text.len() as u64,
        whole: if text.is_empty() {
            place.whole
        } else {
            is_line(text)
        },
    }
}

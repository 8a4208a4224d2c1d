//! How long a stream is.
ghost use Rattle.std.specs.Prelude.{◌≡◌, ◌-◌, ◌^◌, ℕ, List, length, map, min};
ghost use Rattle.example_stream.specs.Readings.{said};
ghost use Rattle.example_stream.specs.Stream.{SpellsFrame, SpellsStream};

use crate::reading::Reading;

// The tag, the station and two counts.
const FIXED_BYTES: u64 = 21;

/// How many bytes the records take in a stream, or `u64::MAX` if they take more.
///
/// The records that were read of a cut stream take the bytes before the record that is cut.
pub fn stream_len(readings: &[Reading]) -> u64
    ensures { (bytes : List ℕ) → SpellsStream (map said readings.now) bytes → result ≡ min (length bytes) (2 ^ 64 - 1) }
{
    let mut len: u64 = 0;
    for reading in readings {
        len = len.saturating_add(frame_len(reading));
    }
    len
}

/// How many bytes a record takes in a stream, or `u64::MAX` if it takes more.
pub fn frame_len(reading: &Reading) -> u64
    ensures { (bytes : List ℕ) → SpellsFrame (said reading.now) bytes → result ≡ min (length bytes) (2 ^ 64 - 1) }
{
    let samples = 2 * reading.samples.len() as u64;
    (reading.note.len() as u64).saturating_add(FIXED_BYTES + samples)
}

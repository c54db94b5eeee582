// The bytes of a reading and of a cart's parameters, as a log has them. A byte past the end counts 0, so that any bytes are a record.
#![tactic(auto)]

ghost use Rattle.std.specs.Prelude.{◌≡◌};
ghost use Rattle.records.specs.Records.{content_of, drive_of, kind_of, noise_of, reading_of, sound_reading, zero_or_one};

use drive::{DifferentialDrive, Reading, WheelMeasurement, WheelNoise};

// How many bytes each has.
pub const READING: usize = 26;

pub const PARAMETERS: usize = 56;

// What kind of reading it is: 0 of ticks, 1 of rates. The byte itself and no enum, as its contract says: a record may have any other, which an event and the
// words on a bad log tell apart.
pub fn kind_of(s: &[u8]) -> u64
    ensures { result ≡ kind_of s.now }
{
    words::byte(s, 0)
}

// The reading at the front.
pub fn reading_of(s: &[u8]) -> WheelMeasurement
    ensures { result ≡ reading_of s.now }
{
    let reading = content_of(s);
    WheelMeasurement {
        timestamp: words::f64_at(s, 2),
        reading,
        valid: words::byte(s, 1) == 1,
    }
}

#[tactic(auto, unfolding(crate::specs::Records::content_of))]
fn content_of(s: &[u8]) -> Reading
    ensures { result ≡ content_of s.now }
{
    if kind_of(s) == 1 {
        return Reading::AngularVelocity(words::f64_at(s, 10), words::f64_at(s, 18));
    }
    Reading::Ticks(words::i64_at(s, 10), words::i64_at(s, 18))
}

// Whether the reading at the front keeps to the layout: every bit pattern of its numbers does.
#[tactic(auto, unfolding(crate::specs::Records::sound_reading))]
pub fn is_sound_reading(s: &[u8]) -> bool
    ensures { result ≡ sound_reading s.now }
{
    is_zero_or_one(kind_of(s)) & is_zero_or_one(words::byte(s, 1))
}

fn is_zero_or_one(b: u64) -> bool
    ensures { result ≡ zero_or_one b }
{
    matches!(b, 0 | 1)
}

// The drive of the parameters at the front.
pub fn drive_of(s: &[u8]) -> DifferentialDrive
    ensures { result ≡ drive_of s.now }
{
    DifferentialDrive {
        left_radius: words::f64_at(s, 0),
        right_radius: words::f64_at(s, 8),
        track_width: words::f64_at(s, 16),
        ticks_per_revolution: words::f64_at(s, 24),
        counter_width: words::u64_at(s, 48),
    }
}

// The noise of the parameters at the front.
pub fn noise_of(s: &[u8]) -> WheelNoise
    ensures { result ≡ noise_of s.now }
{
    WheelNoise {
        wheel_rate: words::f64_at(s, 32),
        lateral_velocity: words::f64_at(s, 40),
    }
}

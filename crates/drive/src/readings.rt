// What the wheel encoders report.
ghost use Rattle.std.specs.Prelude.{◌≡◌};
ghost use Rattle.drive.specs.Readings.{finite_measurement, finite_reading, in_range, rates_at, same_kind, ticks_at};

use crate::{Reading, WheelMeasurement};

impl Reading {
    fn is_finite(self) -> bool
        ensures { result ≡ finite_reading self }
    {
        match self {
            Reading::Ticks(_, _) => true,
            Reading::AngularVelocity(left, right) => number::is_finite(left)
                & number::is_finite(right),
        }
    }

    // Whether counters of so many bits can show it. Rates are of no counter.
    pub fn is_in_range(self, width: u64) -> bool
        ensures { result ≡ in_range width self }
    {
        match self {
            Reading::Ticks(left, right) => number::tick_in_range(width, left)
                & number::tick_in_range(width, right),
            Reading::AngularVelocity(_, _) => true,
        }
    }

    // Ticks both, or rates both.
    pub fn is_same_kind(self, other: Reading) -> bool
        ensures { result ≡ same_kind self other }
    {
        matches!(
            (self, other),
            (Reading::Ticks(_, _), Reading::Ticks(_, _))
                | (
                    Reading::AngularVelocity(_, _),
                    Reading::AngularVelocity(_, _)
                )
        )
    }
}

impl WheelMeasurement {
    // A valid sample of cumulative encoder counts.
    pub fn ticks(timestamp: f64, left: i64, right: i64) -> WheelMeasurement
        ensures { result ≡ ticks_at timestamp left right }
    {
        WheelMeasurement {
            timestamp,
            reading: Reading::Ticks(left, right),
            valid: true,
        }
    }

    // A valid sample of wheel angular velocities.
    pub fn angular_velocity(timestamp: f64, left: f64, right: f64) -> WheelMeasurement
        ensures { result ≡ rates_at timestamp left right }
    {
        WheelMeasurement {
            timestamp,
            reading: Reading::AngularVelocity(left, right),
            valid: true,
        }
    }

    // The time and, where it reads rates, the rates are finite.
    #[tactic(auto, unfolding(crate::specs::Readings::finite_measurement))]
    pub fn is_finite(self) -> bool
        ensures { result ≡ finite_measurement self }
    {
        number::is_finite(self.timestamp) & self.reading.is_finite()
    }
}

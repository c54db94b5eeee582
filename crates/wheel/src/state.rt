// Wheel odometry accumulated between the first and the last integrated reading. To go on from one stretch to the next, read the motion and restart:
// the next interval starts at the last reading.
ghost use Rattle.std.specs.Prelude.{◌≡◌};
ghost use Rattle.wheel.specs.Answers.{told_answer, told_made};
ghost use Rattle.wheel.specs.Integrator.{afresh as afresh_of, begun as begun_of, change_of, make_of, restarted};

use crate::{Settings, WheelPreintegration};
use drive::{DifferentialDrive, Refusal, WheelMeasurement, WheelNoise};
use interval::Accumulated;
use kept::{KeptValues, kept_of};
use planar::PlanarMotion;

impl WheelPreintegration {
    // Stands where there is no state.
    pub const BLANK: WheelPreintegration = WheelPreintegration {
        settings: Settings {
            drive: DifferentialDrive::BLANK,
            noise: WheelNoise::BLANK,
        },
        kept: KeptValues::BLANK,
        accumulated: Accumulated::NONE,
        last: None,
    };

    // An empty integrator; the first reading sets its start. Noise and drive are tested here, in `change` and at each reading, as the three definitions spell it:
    // a change asks more of the drive.
    #[tactic(auto, unfolding(crate::specs::Integrator::make_of))]
    pub fn new(drive: DifferentialDrive, noise: WheelNoise) -> Result<WheelPreintegration, Refusal>
        ensures { told_made result ≡ make_of drive noise }
    {
        if !noise.is_valid() {
            return Err(Refusal::InvalidNoise);
        }
        if !drive.is_valid() {
            return Err(Refusal::InvalidKinematics);
        }
        Ok(afresh(Settings { drive, noise }, None))
    }

    // Base motion since the start, base-now in base-start.
    pub fn motion(self) -> PlanarMotion
        ensures { result ≡ self.accumulated.motion }
    {
        self.accumulated.motion
    }

    // Integrated time, seconds.
    pub fn dt(self) -> f64
        ensures { result ≡ self.accumulated.dt }
    {
        self.accumulated.dt
    }

    // The last integrated reading.
    pub fn last(self) -> Option<WheelMeasurement>
        ensures { result ≡ self.last }
    {
        self.last
    }

    // Clears the motion and the time; the last reading is the new start.
    pub fn restart(&mut self)
        ensures { self.new ≡ restarted self.old }
    {
        self.accumulated = Accumulated::NONE;
    }

    // Another drive, of the same counter width, and another noise, between walks: a restart that takes them. The last reading is the new start.
    #[tactic(auto, unfolding(crate::specs::Integrator::change_of))]
    pub fn change(&mut self, drive: DifferentialDrive, noise: WheelNoise) -> Result<(), Refusal>
        ensures { told_answer result self.new ≡ change_of self.old drive noise }
    {
        if !noise.is_valid() {
            return Err(Refusal::InvalidNoise);
        }
        if !(drive.is_valid() & (drive.counter_width == self.settings.drive.counter_width)) {
            return Err(Refusal::InvalidKinematics);
        }
        *self = afresh(Settings { drive, noise }, self.last);
        Ok(())
    }
}

// With nothing accumulated, and the values to keep worked out.
fn afresh(settings: Settings, last: Option<WheelMeasurement>) -> WheelPreintegration
    ensures { result ≡ begun_of settings (afresh_of settings) last }
{
    WheelPreintegration {
        settings,
        kept: kept_of(settings.drive, settings.noise),
        accumulated: Accumulated::NONE,
        last,
    }
}

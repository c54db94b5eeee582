// Two independently driven wheels on a common axle: their rates, the base's twist, and how the twist moves with the rates.
ghost use Rattle.std.specs.Prelude.{◌≡◌};
ghost use Rattle.drive.specs.Drive.{finite_twist, is_width, valid_drive, jacobian_asked, rates_asked, twist_asked};
ghost use Rattle.drive.specs.Refusals.{said_jacobian, said_rated, said_twisted};

use crate::{BodyTwist, DifferentialDrive, Refusal, TwistColumns, WheelRates, formula};

impl BodyTwist {
    #[tactic(auto, unfolding(crate::specs::Drive::finite_twist))]
    pub fn is_finite(self) -> bool
        ensures { result ≡ finite_twist self }
    {
        number::is_finite(self.vx) & number::is_finite(self.vy) & number::is_finite(self.wz)
    }
}

impl DifferentialDrive {
    // Stands where there is no drive. By a name and no Default: it is no value to begin with.
    pub const BLANK: DifferentialDrive = DifferentialDrive {
        left_radius: 0.0,
        right_radius: 0.0,
        track_width: 0.0,
        ticks_per_revolution: 0.0,
        counter_width: 0,
    };

    // Each length and the counts per turn are finite and above 0, and there are counters of that width.
    #[tactic(auto, unfolding(crate::specs::Drive::valid_drive))]
    pub fn is_valid(self) -> bool
        ensures { result ≡ valid_drive self }
    {
        number::is_finite_positive(self.left_radius)
            & number::is_finite_positive(self.right_radius)
            & number::is_finite_positive(self.track_width)
            & number::is_finite_positive(self.ticks_per_revolution)
            & is_width(self.counter_width)
    }

    // The base's twist from the wheels' angular velocities.
    #[tactic(auto, unfolding(crate::specs::Drive::twist_asked))]
    pub fn twist(self, left: f64, right: f64) -> Result<BodyTwist, Refusal>
        ensures { said_twisted result ≡ twist_asked self left right }
    {
        if !self.is_valid() {
            return Err(Refusal::InvalidKinematics);
        }
        if !(number::is_finite(left) & number::is_finite(right)) {
            return Err(Refusal::NonFinite);
        }
        let v = formula::twist_of(self, WheelRates { left, right });
        if !v.is_finite() {
            return Err(Refusal::NonFinite);
        }
        Ok(v)
    }

    // How the twist moves with each rate: the same at all rates.
    #[tactic(auto, unfolding(crate::specs::Drive::jacobian_asked))]
    pub fn twist_jacobian(self) -> Result<TwistColumns, Refusal>
        ensures { said_jacobian result ≡ jacobian_asked self }
    {
        if !self.is_valid() {
            return Err(Refusal::InvalidKinematics);
        }
        let c = formula::columns(self);
        if !(c.left.is_finite() & c.right.is_finite()) {
            return Err(Refusal::NonFinite);
        }
        Ok(c)
    }

    // Mean wheel rates from a change of so many encoder counts over dt seconds.
    #[tactic(auto, unfolding(crate::specs::Drive::rates_asked))]
    pub fn wheel_rates_from_ticks(
        self,
        left: i64,
        right: i64,
        dt: f64,
    ) -> Result<WheelRates, Refusal>
        ensures { said_rated result ≡ rates_asked self left right dt }
    {
        if !self.is_valid() {
            return Err(Refusal::InvalidKinematics);
        }
        if !number::is_finite(dt) {
            return Err(Refusal::NonFinite);
        }
        if dt < 0.0 {
            return Err(Refusal::OutOfOrder(dt, 0.0));
        }
        if dt == 0.0 {
            return Err(Refusal::Duplicate(dt));
        }
        let per_tick = formula::radians_per_tick(self);
        let w = formula::rates_from_ticks(per_tick, left, right, dt);
        if !(number::is_finite(w.left) & number::is_finite(w.right)) {
            return Err(Refusal::NonFinite);
        }
        Ok(w)
    }
}

// The widths that encoders come in.
fn is_width(width: u64) -> bool
    ensures { result ≡ is_width width }
{
    matches!(width, 16 | 24 | 32 | 64)
}

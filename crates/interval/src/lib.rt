// The motion from one reading to the next, an arc of constant twist in substeps, and what is accumulated over many. From kornia's wheel.rs.
#![tactic(auto)]

ghost use Rattle.std.specs.Prelude.{◌≡◌};
ghost use Rattle.interval.specs.Accumulated.{finite_accumulated};

pub mod formula;

use drive::BodyTwist;
use planar::PlanarMotion;

// A substep lasts at most so many seconds and turns by at most so many radians, unless that takes more than 20 halvings.
pub const MAX_SUBSTEP_SECONDS: f64 = 0.01;

pub const MAX_SUBSTEP_ANGLE: f64 = 0.02;

// What is worked out of two readings before anything is asked of it: the time between them, the twist that is held over it, and the 2^halvings
// substeps that it is cut into, each of so many seconds and turning by the angle.
#[derive(Clone, Copy)]
pub struct Interval {
    pub dt: f64,
    pub twist: BodyTwist,
    pub halvings: u32,
    pub substep: f64,
    pub angle: f64,
}

// Base motion since the start, base-now in base-start, and the time that it took, in seconds.
#[derive(Clone, Copy)]
pub struct Accumulated {
    pub motion: PlanarMotion,
    pub dt: f64,
}

impl Accumulated {
    // No motion in no time.
    pub const NONE: Accumulated = Accumulated {
        motion: PlanarMotion::IDENTITY,
        dt: 0.0,
    };

    #[tactic(auto, unfolding(crate::specs::Accumulated::finite_accumulated))]
    pub fn is_finite(self) -> bool
        ensures { result ≡ finite_accumulated self }
    {
        self.motion.is_finite() & number::is_finite(self.dt)
    }
}

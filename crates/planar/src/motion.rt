// A planar motion with its covariance, and the composing of two, which refuses.
ghost use Rattle.std.specs.Prelude.{◌≡◌};
ghost use Rattle.planar.specs.Compose.{compose_of, told_composed};
ghost use Rattle.planar.specs.Motion.{finite_motion};

use crate::PlanarMotion;
use crate::formula::composed;
use sincos::Refusal;

impl PlanarMotion {
    // No motion, no uncertainty.
    pub const IDENTITY: PlanarMotion = PlanarMotion {
        delta: [0.0; 3],
        covariance: [0.0; 9],
    };

    #[tactic(auto, unfolding(crate::specs::Motion::finite_motion))]
    pub fn is_finite(self) -> bool
        ensures { result ≡ finite_motion self }
    {
        vec3::is_finite_vector(self.delta) & mat3::is_finite(self.covariance)
    }

    // The motion `self` then `next`. The covariance propagates to first order through the composition; the two motions' noise is independent.
    #[tactic(auto, unfolding(crate::specs::Compose::compose_of))]
    pub fn compose(self, next: PlanarMotion) -> Result<PlanarMotion, Refusal>
        ensures { told_composed result ≡ compose_of self next }
    {
        if !(self.is_finite() & next.is_finite()) {
            return Err(Refusal::NonFinite);
        }
        if sincos::is_above_four(self.delta[2]) | sincos::is_above_four(next.delta[2]) {
            return Err(Refusal::AngleRange);
        }
        let motion = composed(self, next);
        if !motion.is_finite() {
            return Err(Refusal::NonFinite);
        }
        Ok(motion)
    }
}

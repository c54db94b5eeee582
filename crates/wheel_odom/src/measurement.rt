// Wheel-odometry motion of the base between two keyframes, lifted out of the plane by two stiff sigmas.
ghost use Rattle.std.specs.Prelude.{◌≡◌};
ghost use Rattle.wheel_odom.specs.Measurement.{compose_of, composed_measurement, finite_measurement, joined_sigma, motion_of, of_motion, told_measurement, with_defaults, with_sigmas};

use crate::WheelOdomMeasurement;
use planar::PlanarMotion;
use sincos::Refusal;

impl WheelOdomMeasurement {
    // 1 cm and 0.01 rad: unmeasured, to be tuned on the cart.
    pub const DEFAULT_Z_SIGMA: f64 = 0.01;

    pub const DEFAULT_TILT_SIGMA: f64 = 0.01;

    // Stands where there is no measurement.
    pub const BLANK: WheelOdomMeasurement = WheelOdomMeasurement {
        delta: [0.0; 3],
        covariance: [0.0; 9],
        z_sigma: 0.0,
        tilt_sigma: 0.0,
    };

    // A measurement with the default sigmas.
    pub fn new(delta: [f64; 3], covariance: [f64; 9]) -> WheelOdomMeasurement
        ensures { result ≡ with_defaults delta covariance }
    {
        WheelOdomMeasurement {
            delta,
            covariance,
            z_sigma: WheelOdomMeasurement::DEFAULT_Z_SIGMA,
            tilt_sigma: WheelOdomMeasurement::DEFAULT_TILT_SIGMA,
        }
    }

    pub fn with_out_of_plane_sigmas(self, z_sigma: f64, tilt_sigma: f64) -> WheelOdomMeasurement
        ensures { result ≡ with_sigmas self z_sigma tilt_sigma }
    {
        WheelOdomMeasurement {
            z_sigma,
            tilt_sigma,
            ..self
        }
    }

    // The planar delta and its covariance.
    #[tactic(auto, unfolding(crate::specs::Measurement::motion_of))]
    pub fn planar_motion(self) -> PlanarMotion
        ensures { result ≡ motion_of self }
    {
        let WheelOdomMeasurement {
            delta,
            covariance,
            ..
        } = self;
        PlanarMotion { delta, covariance }
    }

    // The motion `self` then `next`: the planar part composes, the out-of-plane sigmas add in quadrature.
    #[tactic(auto, unfolding(crate::specs::Measurement::compose_of, planar::specs::Compose::compose_of, crate::specs::Measurement::composed_measurement, crate::specs::Measurement::finite_measurement, crate::specs::Measurement::motion_of))]
    pub fn compose(self, next: WheelOdomMeasurement) -> Result<WheelOdomMeasurement, Refusal>
        ensures { told_measurement result ≡ compose_of self next }
    {
        let motion = self.planar_motion().compose(next.planar_motion())?;
        let z = joined_sigma(self.z_sigma, next.z_sigma);
        let tilt = joined_sigma(self.tilt_sigma, next.tilt_sigma);
        if !(number::is_finite(z) & number::is_finite(tilt)) {
            return Err(Refusal::NonFinite);
        }
        Ok(WheelOdomMeasurement::from(motion).with_out_of_plane_sigmas(z, tilt))
    }
}

// A preintegrated motion with the default sigmas.
impl From<PlanarMotion> for WheelOdomMeasurement {
    ghost from_gives = { λ motion measurement. measurement ≡ of_motion motion };

    fn from(motion: PlanarMotion) -> WheelOdomMeasurement {
        WheelOdomMeasurement::new(motion.delta, motion.covariance)
    }
}

// The root of a·a + b·b, or NaN where it has none.
fn joined_sigma(a: f64, b: f64) -> f64
    ensures { result ≡ joined_sigma a b }
{
    root::formula::root_or_nan(a * a + b * b)
}

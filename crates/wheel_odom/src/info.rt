// The information of a measurement over the residual tangent [x, y, z, roll, pitch, yaw].
ghost use Rattle.std.specs.Prelude.{◌≡◌};
ghost use Rattle.wheel_odom.specs.Information.{has_information, information_of, spread as spread_of, told_informed};

use crate::{Refusal, WheelOdomMeasurement};

impl WheelOdomMeasurement {
    // Thirty-six numbers, column by column.
    #[tactic(auto, unfolding(crate::specs::Information::information_of, crate::specs::Information::information_matrix))]
    pub fn information(self) -> Result<[f64; 36], Refusal>
        ensures { told_informed result ≡ information_of self }
    {
        if !self.has_information() {
            return Err(Refusal::NoInformation);
        }
        let motion = self.planar_motion();
        if sincos::is_above_four(motion.delta[2]) {
            return Err(Refusal::AngleRange);
        }
        let block = planar_information::planar_block(motion);
        let z = 1.0 / (self.z_sigma * self.z_sigma);
        let tilt = 1.0 / (self.tilt_sigma * self.tilt_sigma);
        if !(mat3::is_finite(block) & number::is_finite(z) & number::is_finite(tilt)) {
            return Err(Refusal::NonFinite);
        }
        Ok(spread(block, z, tilt))
    }

    // The checks of which failing any gives no information.
    #[tactic(auto, unfolding(crate::specs::Information::has_information))]
    fn has_information(self) -> bool
        ensures { result ≡ has_information self }
    {
        number::is_finite_positive(self.z_sigma)
            & number::is_finite_positive(self.tilt_sigma)
            & self.planar_motion().is_finite()
            & planar_information::is_invertible(self.covariance)
    }
}

// The planar block at rows and columns 0, 1, 5; z at 2; t at 3 and 4.
fn spread(p: [f64; 9], z: f64, t: f64) -> [f64; 36]
    ensures { result ≡ spread_of p z t }
{
    [
        p[0], p[1], 0.0, 0.0, 0.0, p[2], p[3], p[4], 0.0, 0.0, 0.0, p[5], 0.0, 0.0, z, 0.0, 0.0,
        0.0, 0.0, 0.0, 0.0, t, 0.0, 0.0, 0.0, 0.0, 0.0, 0.0, t, 0.0, p[6], p[7], 0.0, 0.0, 0.0,
        p[8],
    ]
}

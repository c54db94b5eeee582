// White-noise densities that drive the covariance.
ghost use Rattle.std.specs.Prelude.{◌≡◌};
ghost use Rattle.drive.specs.Noise.{valid_noise};

use crate::WheelNoise;

impl WheelNoise {
    // Unmeasured placeholders; to be tuned on the cart.
    pub const DEFAULT: WheelNoise = WheelNoise {
        wheel_rate: 0.05,
        lateral_velocity: 0.01,
    };

    // Stands where there is no noise.
    pub const BLANK: WheelNoise = WheelNoise {
        wheel_rate: 0.0,
        lateral_velocity: 0.0,
    };

    // Each density is finite and not below 0.
    #[tactic(auto, unfolding(crate::specs::Noise::valid_noise))]
    pub fn is_valid(self) -> bool
        ensures { result ≡ valid_noise self }
    {
        number::is_finite_not_negative(self.wheel_rate)
            & number::is_finite_not_negative(self.lateral_velocity)
    }
}

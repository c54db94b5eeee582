// A wheel-odometry constraint between two keyframes, whether it can enter a solve, and the joining of two. From kornia's wheel_odom.rs.
#![tactic(auto)]

ghost use Rattle.std.specs.Prelude.{◌≡◌};
ghost use Rattle.wheel_factor.specs.Factor.{compose_factor_of, factor_of, finite_extrinsic, of_measurement, row_of, valid_factor, told_factor};

use number::Numbered;
use wheel_odom::WheelOdomMeasurement;

// Base-to-camera transform: X_cam = rotation · X_base + translation.
#[derive(Clone, Copy)]
pub struct Extrinsic {
    pub rotation: [f64; 9],
    pub translation: [f64; 3],
}

#[derive(Clone, Copy)]
pub struct WheelOdomFactor {
    pub from_idx: usize,
    pub to_idx: usize,
    pub measurement: WheelOdomMeasurement,
    pub t_cb_from: Extrinsic,
    pub t_cb_to: Extrinsic,
    // Threshold on the six-dimensional chi².
    pub huber_chi2: Option<f64>,
}

// Why two factors are not joined.
#[derive(Clone, Copy, Debug, PartialEq, Eq)]
pub enum Refusal {
    NotJoined,
    NonFinite,
    AngleRange,
}

impl Numbered for Refusal {
    ghost row_of = { row_of };

    fn number(self) -> u64 {
        match self {
            Refusal::NotJoined => 10,
            Refusal::NonFinite => 2,
            Refusal::AngleRange => 8,
        }
    }
}

// A factor is refused as its measurement is.
impl From<sincos::Refusal> for Refusal {
    ghost from_gives = { λ refusal result. result ≡ of_measurement refusal };

    fn from(refusal: sincos::Refusal) -> Refusal {
        match refusal {
            sincos::Refusal::NonFinite => Refusal::NonFinite,
            sincos::Refusal::AngleRange => Refusal::AngleRange,
        }
    }
}

impl Extrinsic {
    const BLANK: Extrinsic = Extrinsic {
        rotation: [0.0; 9],
        translation: [0.0; 3],
    };

    pub fn is_finite(self) -> bool
        ensures { result ≡ finite_extrinsic self }
    {
        mat3::is_finite(self.rotation) & vec3::is_finite_vector(self.translation)
    }
}

impl WheelOdomFactor {
    // Stands where there is no factor.
    pub const BLANK: WheelOdomFactor = WheelOdomFactor {
        from_idx: 0,
        to_idx: 0,
        measurement: WheelOdomMeasurement::BLANK,
        t_cb_from: Extrinsic::BLANK,
        t_cb_to: Extrinsic::BLANK,
        huber_chi2: None,
    };

    pub fn new(
        from_idx: usize,
        to_idx: usize,
        measurement: WheelOdomMeasurement,
        t_cb_from: Extrinsic,
        t_cb_to: Extrinsic,
        huber_chi2: Option<f64>,
    ) -> WheelOdomFactor
        ensures { result ≡ factor_of from_idx to_idx measurement t_cb_from t_cb_to huber_chi2 }
    {
        WheelOdomFactor {
            from_idx,
            to_idx,
            measurement,
            t_cb_from,
            t_cb_to,
            huber_chi2,
        }
    }

    // Whether the factor can enter a solve.
    #[tactic(auto, unfolding(crate::specs::Factor::valid_factor))]
    pub fn is_valid(self) -> bool
        ensures { result ≡ valid_factor self }
    {
        (self.from_idx != self.to_idx)
            & robust::is_valid(self.huber_chi2)
            & self.t_cb_from.is_finite()
            & self.t_cb_to.is_finite()
            & self.measurement.information().is_ok()
    }

    // The factor from `self`'s start to `next`'s end, where `next` starts where `self` ends.
    #[tactic(auto, unfolding(crate::specs::Factor::compose_factor_of))]
    pub fn compose(self, next: WheelOdomFactor) -> Result<WheelOdomFactor, Refusal>
        ensures { told_factor result ≡ compose_factor_of self next }
    {
        if self.to_idx != next.from_idx {
            return Err(Refusal::NotJoined);
        }
        let measurement = self.measurement.compose(next.measurement)?;
        Ok(WheelOdomFactor {
            to_idx: next.to_idx,
            measurement,
            t_cb_to: next.t_cb_to,
            huber_chi2: robust::joined(self.huber_chi2, next.huber_chi2),
            ..self
        })
    }
}

// The information of each residual block of a still factor; every block is diagonal. From kornia's stationary.rs.
#![tactic(auto)]

ghost use Rattle.std.specs.Prelude.{◌≡◌};
ghost use Rattle.stationary_information.specs.Information.{finite_info, finite_row, gyro_row, info_of, information_of, refusal_row, row_of, told_informed};

use number::Numbered;
use stationary::{StationaryFactor, StationaryGyro};

// The measured mean rate and its information on each axis.
#[derive(Clone, Copy)]
pub struct GyroRow {
    pub mean: StationaryGyro,
    pub information: f64,
}

#[derive(Clone, Copy)]
pub struct StationaryInfo {
    // Thirty-six numbers, column by column.
    pub pose: [f64; 36],
    // On each axis, for each of the two velocities.
    pub velocity: f64,
    pub gyro_bias: f64,
    pub accel_bias: f64,
    // None where no rate was measured.
    pub gyro_mean: Option<GyroRow>,
}

// Why a factor has no information.
#[derive(Clone, Copy, Debug, PartialEq, Eq)]
pub enum Refusal {
    InvalidFactor,
    NonFinite,
}

impl Numbered for Refusal {
    ghost row_of = { refusal_row };

    fn number(self) -> u64 {
        match self {
            Refusal::InvalidFactor => 11,
            Refusal::NonFinite => 2,
        }
    }
}

impl StationaryInfo {
    // Stands where there is no information.
    pub const BLANK: StationaryInfo = StationaryInfo {
        pose: [0.0; 36],
        velocity: 0.0,
        gyro_bias: 0.0,
        accel_bias: 0.0,
        gyro_mean: None,
    };

    // Every number that is not a written zero: of the pose, the two that its diagonal repeats.
    #[tactic(auto, unfolding(crate::specs::Information::finite_info))]
    fn is_finite(self) -> bool
        ensures { result ≡ finite_info self }
    {
        number::is_finite(self.pose[0])
            & number::is_finite(self.pose[21])
            & number::is_finite(self.velocity)
            & number::is_finite(self.gyro_bias)
            & number::is_finite(self.accel_bias)
            & is_finite_row(self.gyro_mean)
    }
}

fn is_finite_row(row: Option<GyroRow>) -> bool
    ensures { result ≡ finite_row row }
{
    row.is_none_or(|r| r.mean.is_finite() & number::is_finite(r.information))
}

#[tactic(auto, unfolding(crate::specs::Information::information_of))]
pub fn information(factor: StationaryFactor) -> Result<StationaryInfo, Refusal>
    ensures { told_informed result ≡ information_of factor }
{
    if !factor.is_valid() {
        return Err(Refusal::InvalidFactor);
    }
    let info = info(factor);
    if !info.is_finite() {
        return Err(Refusal::NonFinite);
    }
    Ok(info)
}

#[tactic(auto, using(crate::proofs::Diagonal::same), unfolding(crate::specs::Information::info_of))]
fn info(factor: StationaryFactor) -> StationaryInfo
    ensures { result ≡ info_of factor }
{
    let calib = factor.calib;
    let span = factor.span_s;
    let t = factor.translation_sigma_m;
    let r = factor.rotation_sigma_rad;
    let v = factor.velocity_sigma_m_s;
    StationaryInfo {
        pose: mat9::diag_6x6(1.0 / (t * t), 1.0 / (r * r)),
        velocity: 1.0 / (v * v),
        gyro_bias: 1.0 / (calib.gyro_bias_noise * calib.gyro_bias_noise * span),
        accel_bias: 1.0 / (calib.accel_bias_noise * calib.accel_bias_noise * span),
        gyro_mean: gyro_row(factor),
    }
}

// The row of the mean rate, if there is one.
fn gyro_row(factor: StationaryFactor) -> Option<GyroRow>
    ensures { result ≡ gyro_row factor factor.gyro }
{
    factor.gyro.map(|mean| GyroRow {
        mean,
        information: row(factor, mean),
    })
}

// The variance of the mean of white noise falls with the seconds behind it; the bias's average over the span and that of its two ends differ by a
// Brownian bridge, whose variance is a twelfth of the walk's.
fn row(factor: StationaryFactor, g: StationaryGyro) -> f64
    ensures { result ≡ row_of factor g }
{
    let calib = factor.calib;
    let white = calib.gyro_noise * calib.gyro_noise / g.covered_s;
    let walk = calib.gyro_bias_noise * calib.gyro_bias_noise * factor.span_s;
    1.0 / (white + walk / 12.0)
}

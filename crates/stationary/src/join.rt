// Two stretches through a removed keyframe become one.
ghost use Rattle.std.specs.Prelude.{◌≡◌};
ghost use Rattle.stationary.specs.Join.{compose_of, finite_gyro, joined_factor, joined_gyro, mean_of, said_joined, weighted as weighted_of};

use crate::{Refusal, StationaryFactor, StationaryGyro};

impl StationaryFactor {
    // The factor from `self`'s start to `next`'s end. The sigmas are the looser of the two: the relative pose of two keyframes of one stop is zero
    // however many were culled between them, and only the bias walk grows, through the span.
    #[tactic(auto, unfolding(crate::specs::Join::compose_of))]
    pub fn compose(self, next: StationaryFactor) -> Result<StationaryFactor, Refusal>
        ensures { said_joined result ≡ compose_of self next }
    {
        if !(self.is_valid() & next.is_valid()) {
            return Err(Refusal::InvalidFactor);
        }
        if (self.to_idx != next.from_idx) | (self.from_idx == next.to_idx) {
            return Err(Refusal::NotJoined);
        }
        let f = self.joined(next);
        if !(number::is_finite(f.span_s) & is_finite_gyro(f.gyro)) {
            return Err(Refusal::NonFinite);
        }
        Ok(f)
    }

    #[tactic(auto, unfolding(crate::specs::Join::joined_factor))]
    fn joined(self, next: StationaryFactor) -> StationaryFactor
        ensures { result ≡ joined_factor self next }
    {
        StationaryFactor {
            to_idx: next.to_idx,
            span_s: self.span_s + next.span_s,
            gyro: joined_gyro(self.gyro, next.gyro),
            translation_sigma_m: number::larger(self.translation_sigma_m, next.translation_sigma_m),
            rotation_sigma_rad: number::larger(self.rotation_sigma_rad, next.rotation_sigma_rad),
            velocity_sigma_m_s: number::larger(self.velocity_sigma_m_s, next.velocity_sigma_m_s),
            huber_chi2: robust::joined(self.huber_chi2, next.huber_chi2),
            ..self
        }
    }
}

// The one mean that is there, or the two weighted by their seconds. As a Huber limit is joined, of another type: one function of both would take a closure with a
// contract longer than this.
fn joined_gyro(
    first: Option<StationaryGyro>,
    next: Option<StationaryGyro>,
) -> Option<StationaryGyro>
    ensures { result ≡ joined_gyro first next }
{
    match (first, next) {
        (Some(a), Some(b)) => Some(a.mean(b)),
        (gyro, None) | (None, gyro) => gyro,
    }
}

fn is_finite_gyro(gyro: Option<StationaryGyro>) -> bool
    ensures { result ≡ finite_gyro gyro }
{
    gyro.is_none_or(|g| g.is_finite() & number::is_finite(g.covered_s))
}

impl StationaryGyro {
    #[tactic(auto, unfolding(crate::specs::Join::mean_of))]
    fn mean(self, next: StationaryGyro) -> StationaryGyro
        ensures { result ≡ mean_of self next }
    {
        let s = self.covered_s;
        let t = next.covered_s;
        StationaryGyro {
            x: weighted(self.x, s, next.x, t),
            y: weighted(self.y, s, next.y, t),
            z: weighted(self.z, s, next.z, t),
            covered_s: s + t,
        }
    }
}

fn weighted(a: f64, s: f64, b: f64, t: f64) -> f64
    ensures { result ≡ weighted_of a s b t }
{
    (a * s + b * t) / (s + t)
}

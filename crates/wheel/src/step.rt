// One reading taken.
ghost use Rattle.std.specs.Prelude.{◌≡◌};
ghost use Rattle.wheel.specs.Answers.{told_answer};
ghost use Rattle.wheel.specs.Step.{step_from, step_of};

use crate::WheelPreintegration;
use drive::{Refusal, WheelMeasurement};
use interval::formula::{advanced, interval_of};
use step_order::{interval_fits, reading_fits};

impl WheelPreintegration {
    // Integrates the interval from the last reading to m. A refused reading leaves the state as it came; skipping it loses no motion in ticks,
    // since the next interval spans it.
    #[tactic(auto, unfolding(crate::specs::Step::step_of))]
    pub fn integrate(&mut self, m: WheelMeasurement) -> Result<(), Refusal>
        ensures { told_answer result self.new ≡ step_of self.old m }
    {
        reading_fits(self.settings.drive, self.settings.noise, m)?;
        let Some(last) = self.last else {
            self.last = Some(m);
            return Ok(());
        };
        self.step_from(last, m)
    }

    #[tactic(auto, unfolding(crate::specs::Step::step_from))]
    fn step_from(&mut self, last: WheelMeasurement, m: WheelMeasurement) -> Result<(), Refusal>
        ensures { told_answer result self.new ≡ step_from self.old.kept self.old last m }
    {
        let i = interval_of(self.settings.drive, self.kept.radians_per_tick, last, m);
        interval_fits(self.accumulated.motion.delta[2], last, m, i)?;
        let accumulated = advanced(self.accumulated, self.kept.rate_noise, i);
        if !accumulated.is_finite() {
            return Err(Refusal::NonFinite);
        }
        self.accumulated = accumulated;
        self.last = Some(m);
        Ok(())
    }
}

// The number of what is refused.
ghost use Rattle.drive.specs.Refusals.{row_of};

use crate::Refusal;
use number::Numbered;

impl Numbered for Refusal {
    ghost row_of = { row_of };

    fn number(self) -> u64 {
        match self {
            Refusal::Invalid => 1,
            Refusal::NonFinite => 2,
            Refusal::OutOfOrder(_, _) => 3,
            Refusal::Duplicate(_) => 4,
            Refusal::MixedReadings => 5,
            Refusal::InvalidNoise => 6,
            Refusal::InvalidKinematics => 7,
            Refusal::AngleRange => 8,
            Refusal::TickRange => 16,
        }
    }
}

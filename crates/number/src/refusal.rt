// What is refused of a number, and what every refusal has: 01's number.
ghost use Rattle.std.specs.Prelude.{◌≡◌, ◌<◌};
ghost use Rattle.number.specs.Said.{Row};
ghost use Rattle.number.specs.Refusals.{row_of};

// An enum of refusals: the row of 01's table that each case has.
pub trait Numbered {
    ghost row_of: { Self → Row };

    // It has at most two digits: what prints it goes by that.
    fn number(self) -> u64
        ensures value { result ≡ (row_of self).number }
        ensures upper_bound { result < 100 };
}

#[derive(Clone, Copy, Debug, PartialEq, Eq)]
pub enum Refusal {
    // A named input or a result is infinite or NaN.
    NonFinite,
}

impl Numbered for Refusal {
    ghost row_of = { row_of };

    fn number(self) -> u64 {
        2
    }
}

// Whole numbers as f64: to the nearest, ties to the even one, for every i64.
ghost use Rattle.std.specs.Prelude.{◌≡◌};
ghost use Rattle.number.specs.Whole.{whole_to_float};

pub fn whole_to_f64(n: i64) -> f64
    ensures { result ≡ whole_to_float n }
{
    std::num::nearest_i64_to_f64(n)
}

// How often an interval is halved until each part is short enough.
ghost use Rattle.std.specs.Prelude.{◌≡◌};
ghost use Rattle.number.specs.Halving.{first_from, halvings_of, made};

// So many halvings, and the number of equal parts that they make: 2^count.
#[derive(Clone, Copy)]
pub struct Halved {
    pub count: u32,
    pub parts: f64,
}

// The halvings for an interval that is `ratio` times as long as a part may be: none up to 1 + 1e-9, so that a nominal sample that was
// rounded up stays whole, and never more than 20.
pub fn halvings(ratio: f64) -> Halved
    ensures { result ≡ halvings_of ratio }
{
    if ratio <= 1.000000001 {
        return Halved {
            count: 0,
            parts: 1.0,
        };
    }
    first_halvings(ratio)
}

// The first power of two, from 2^0 to 2^20, that is not below the ratio, or 2^20.
fn first_halvings(ratio: f64) -> Halved
    ensures { result ≡ made (first_from 20 0 ratio) }
{
    let mut parts = 1.0;
    for count in 0..20 {
        if !(parts < ratio) {
            return Halved { count, parts };
        }
        parts = parts + parts;
    }
    Halved { count: 20, parts }
}

// The operators on f64.
ghost use Rattle.std.specs.Prelude.{◌≡◌, ◌↔◌, true};
ghost use Rattle.floats.specs.Formats.{binary64};
ghost use Rattle.floats.specs.Operations.{Adds, Subtracts, Multiplies, Divides, opposite};
ghost use Rattle.floats.specs.Comparison.{Less, AtMost, Same, Differs};

pub fn add_f64(x: f64, y: f64) -> f64
    ensures { Adds binary64 x y result }
{
    x + y
}

pub fn subtract_f64(x: f64, y: f64) -> f64
    ensures { Subtracts binary64 x y result }
{
    x - y
}

pub fn multiply_f64(x: f64, y: f64) -> f64
    ensures { Multiplies binary64 x y result }
{
    x * y
}

pub fn divide_f64(x: f64, y: f64) -> f64
    ensures { Divides binary64 x y result }
{
    x / y
}

pub fn negate_f64(x: f64) -> f64
    ensures { result ≡ opposite x }
{
    -x
}

pub fn less_f64(x: f64, y: f64) -> bool
    ensures { (result ≡ true) ↔ (Less x y) }
{
    x < y
}

pub fn at_most_f64(x: f64, y: f64) -> bool
    ensures { (result ≡ true) ↔ (AtMost x y) }
{
    x <= y
}

pub fn equal_f64(x: f64, y: f64) -> bool
    ensures { (result ≡ true) ↔ (Same x y) }
{
    x == y
}

pub fn not_equal_f64(x: f64, y: f64) -> bool
    ensures { (result ≡ true) ↔ (Differs x y) }
{
    x != y
}

pub fn greater_f64(x: f64, y: f64) -> bool
    ensures { (result ≡ true) ↔ (Less y x) }
{
    x > y
}

pub fn at_least_f64(x: f64, y: f64) -> bool
    ensures { (result ≡ true) ↔ (AtMost y x) }
{
    x >= y
}

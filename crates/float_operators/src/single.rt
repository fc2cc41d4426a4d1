// The operators on f32.
// One function for each: an operator is no value that a generic function could take, and tests call each on its own.
ghost use Rattle.std.specs.Prelude.{◌≡◌, ◌↔◌, true};
ghost use Rattle.floats.specs.Formats.{binary32};
ghost use Rattle.floats.specs.Operations.{Adds, Subtracts, Multiplies, Divides, opposite};
ghost use Rattle.floats.specs.Comparison.{Less, AtMost, Same, Differs};

pub fn add_f32(x: f32, y: f32) -> f32
    ensures { Adds binary32 x y result }
{
    x + y
}

pub fn subtract_f32(x: f32, y: f32) -> f32
    ensures { Subtracts binary32 x y result }
{
    x - y
}

pub fn multiply_f32(x: f32, y: f32) -> f32
    ensures { Multiplies binary32 x y result }
{
    x * y
}

pub fn divide_f32(x: f32, y: f32) -> f32
    ensures { Divides binary32 x y result }
{
    x / y
}

pub fn negate_f32(x: f32) -> f32
    ensures { result ≡ opposite x }
{
    -x
}

pub fn less_f32(x: f32, y: f32) -> bool
    ensures { (result ≡ true) ↔ (Less x y) }
{
    x < y
}

pub fn at_most_f32(x: f32, y: f32) -> bool
    ensures { (result ≡ true) ↔ (AtMost x y) }
{
    x <= y
}

pub fn equal_f32(x: f32, y: f32) -> bool
    ensures { (result ≡ true) ↔ (Same x y) }
{
    x == y
}

pub fn not_equal_f32(x: f32, y: f32) -> bool
    ensures { (result ≡ true) ↔ (Differs x y) }
{
    x != y
}

pub fn greater_f32(x: f32, y: f32) -> bool
    ensures { (result ≡ true) ↔ (Less y x) }
{
    x > y
}

pub fn at_least_f32(x: f32, y: f32) -> bool
    ensures { (result ≡ true) ↔ (AtMost y x) }
{
    x >= y
}

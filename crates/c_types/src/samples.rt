// A nodata value beside its flag. One of another type is converted as a sample first.
ghost use Rattle.std.specs.Prelude.{◌≡◌};
ghost use Rattle.c_types.specs.Samples.{nodata_if};

pub fn nodata_if(given: u32, value: f32) -> Option<f32>
    ensures { result ≡ nodata_if given value }
{
    (given == 1).then_some(value)
}

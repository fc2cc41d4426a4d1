// A sample as a key.
ghost use Rattle.std.specs.Prelude.{◌≡◌};
ghost use Rattle.cast.specs.Truncated.{truncated};
ghost use Rattle.c_answers.specs.Keys.{key_to_c};

use c_answers::keys::LegendKey;

// The key of a sample.
#[unsafe(no_mangle)]
pub extern "C" fn legend_to_i64(x: f32) -> LegendKey
    ensures { result ≡ key_to_c (truncated x) }
{
    c_queries::keys::legend_to_i64(x)
}

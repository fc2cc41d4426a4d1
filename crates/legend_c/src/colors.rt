// Hex text and palettes.
ghost use Rattle.std.specs.Prelude.{◌≡◌};
ghost use Rattle.color.specs.Hex.{hex_color};
ghost use Rattle.palettes.specs.Asked.{palette_of};
ghost use Rattle.c_answers.specs.Colors.{hex_to_c, palette_to_c};

use c_answers::colors::{LegendColor, LegendPalette};

// The colour of `#RRGGBB` or `#RRGGBBAA`.
#[unsafe(no_mangle)]
pub extern "C" fn legend_hex(text: &[u8]) -> LegendColor
    ensures { result ≡ hex_to_c (hex_color text.now) }
{
    c_queries::colors::legend_hex(text)
}

// The palette with a number.
#[unsafe(no_mangle)]
pub extern "C" fn legend_palette(number: usize) -> LegendPalette
    ensures { result ≡ palette_to_c (palette_of number) }
{
    c_queries::colors::legend_palette(number)
}

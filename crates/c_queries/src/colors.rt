// Hex text and palettes.
ghost use Rattle.std.specs.Prelude.{◌≡◌};
ghost use Rattle.color.specs.Hex.{hex_color};
ghost use Rattle.palettes.specs.Asked.{palette_of};
ghost use Rattle.c_answers.specs.Colors.{hex_to_c, palette_to_c};

use c_answers::colors;
use c_answers::colors::{LegendColor, LegendPalette};
use color::Color;

// The colour of `#RRGGBB` or `#RRGGBBAA`.
pub fn legend_hex(text: &[u8]) -> LegendColor
    ensures { result ≡ hex_to_c (hex_color text.now) }
{
    colors::hex_to_c(Color::from_hex_string(text))
}

// The palette with a number.
pub fn legend_palette(number: usize) -> LegendPalette
    ensures { result ≡ palette_to_c (palette_of number) }
{
    colors::palette_to_c(palettes::palette_of(number))
}

// Colours, their words, and hex text (docs/RULES.md, "Colours and ramps").
#![tactic(auto)]

ghost use Rattle.std.specs.Prelude.{◌≡◌, ◌+◌, ◌*◌, ◌<◌, length};
ghost use Rattle.color.specs.Word.{word_of, color_of, transparent};
ghost use Rattle.color.specs.Hex.{hex_digit, hex_pair, pair_at, hex_form, of_pairs, hex_color};

use refusal::Refusal;

#[derive(Clone, Copy, PartialEq, Eq, Debug)]
pub struct Color {
    pub r: u8,
    pub g: u8,
    pub b: u8,
    pub a: u8,
}

impl Color {
    pub const TRANSPARENT: Color = Color {
        r: 0,
        g: 0,
        b: 0,
        a: 0,
    };

    // The constant as a value with a contract.
    pub fn default() -> Color
        ensures { result ≡ transparent }
    {
        Color::TRANSPARENT
    }

    // An opaque colour.
    pub fn rgb(r: u8, g: u8, b: u8) -> Color
        ensures { result ≡ record { r = r; g = g; b = b; a = 255 } }
    {
        Color::rgba(r, g, b, 255)
    }

    pub fn rgba(r: u8, g: u8, b: u8, a: u8) -> Color
        ensures { result ≡ record { r = r; g = g; b = b; a = a } }
    {
        Color { r, g, b, a }
    }

    // The colour's word.
    pub fn to_bits(self) -> u32
        ensures { result ≡ word_of self }
    {
        (self.r as u32)
            + 256 * (self.g as u32)
            + 65536 * (self.b as u32)
            + 16777216 * (self.a as u32)
    }

    // The colour of a word.
    pub fn from_bits(word: u32) -> Color
        ensures { result ≡ color_of word }
    {
        Color {
            r: (word % 256) as u8,
            g: (word / 256 % 256) as u8,
            b: (word / 65536 % 256) as u8,
            a: (word / 16777216 % 256) as u8,
        }
    }

    // A colour of `#RRGGBB` or `#RRGGBBAA`, or the first refusal that applies.
    pub fn from_hex_string(text: &[u8]) -> Result<Color, Refusal>
        ensures { result ≡ hex_color text.now }
    {
        if text.len() == 0 {
            return Err(Refusal::EmptyText);
        }
        if !Color::hex_form(text) {
            return Err(Refusal::NotHexColor);
        }
        let r = Color::pair_at(text, 0);
        let g = Color::pair_at(text, 1);
        let b = Color::pair_at(text, 2);
        if text.len() == 7 {
            return Color::of_pairs(r, g, b, Some(255));
        }
        let a = Color::pair_at(text, 3);
        Color::of_pairs(r, g, b, a)
    }

    // Whether the text starts with `#` and has the length of three or four pairs.
    fn hex_form(text: &[u8]) -> bool
        ensures { result ≡ hex_form text.now }
    {
        match text.len() {
            7 | 9 => text[0] == b'#',
            _ => false,
        }
    }

    // A colour of its channels, or the first pair that is no byte.
    #[tactic(auto, unfolding(crate::specs::Hex::of_pairs))]
    fn of_pairs(
        r: Option<u8>,
        g: Option<u8>,
        b: Option<u8>,
        a: Option<u8>,
    ) -> Result<Color, Refusal>
        ensures { result ≡ of_pairs r g b a }
    {
        let red = r.ok_or(Refusal::NotHexByte(0))?;
        let green = g.ok_or(Refusal::NotHexByte(1))?;
        let blue = b.ok_or(Refusal::NotHexByte(2))?;
        let alpha = a.ok_or(Refusal::NotHexByte(3))?;
        Ok(Color::rgba(red, green, blue, alpha))
    }

    // The pair with a number, counted from 0 after the `#`.
    fn pair_at(text: &[u8], pair: usize) -> Option<u8>
        requires { 2 + 2 * pair < length text.now }
        ensures { result ≡ pair_at text.now pair }
    {
        Color::parse_hex(text[1 + 2 * pair], text[2 + 2 * pair])
    }

    // A pair as `u8::from_str_radix(_, 16)` reads it: `+` may stand in place of the first digit.
    #[tactic(auto, using(crate::proofs::Digits::below_16), unfolding(crate::specs::Hex::hex_pair, crate::specs::Hex::two_digits))]
    fn parse_hex(high: u8, low: u8) -> Option<u8>
        ensures { result ≡ hex_pair high low }
    {
        if high == b'+' {
            return Color::hex_digit(low);
        }
        let h = Color::hex_digit(high)?;
        let l = Color::hex_digit(low)?;
        Some(16 * h + l)
    }

    // A hex digit of either case.
    fn hex_digit(byte: u8) -> Option<u8>
        ensures { result ≡ hex_digit byte }
    {
        match byte {
            b'0'..=b'9' => Some(byte - b'0'),
            b'A'..=b'F' => Some(byte - b'A' + 10),
            b'a'..=b'f' => Some(byte - b'a' + 10),
            _ => None,
        }
    }
}

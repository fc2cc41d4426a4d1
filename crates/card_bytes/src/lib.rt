// The bytes of a card: numbers, the lowest byte first, read from bytes and laid over them (docs/RULES.md, "Cards").
#![tactic(auto)]

ghost use Rattle.std.specs.Prelude.{◌≡◌, ◌+◌, ◌≤◌, ◌<◌, length};
ghost use Rattle.card_bytes.specs.Numbers.{bytes_of, number_at, overwritten};

// ---- reading

#[tactic(auto, using(crate::proofs::Numbers::first_byte))]
pub fn u8_at(bytes: &[u8], at: usize) -> u8
    requires { at < length bytes.now }
    ensures { result ≡ number_at at 1 bytes.now }
{
    bytes[at]
}

#[tactic(auto, using(crate::proofs::LittleEndian::number_2), unfolding(crate::specs::Numbers::number_at))]
pub fn u16_at(bytes: &[u8], at: usize) -> u16
    requires { at + 2 ≤ length bytes.now }
    ensures { result ≡ number_at at 2 bytes.now }
{
    u16::from_le_bytes(bytes[at..at + 2].try_into().unwrap())
}

#[tactic(auto, using(crate::proofs::LittleEndian::number_4), unfolding(crate::specs::Numbers::number_at))]
pub fn u32_at(bytes: &[u8], at: usize) -> u32
    requires { at + 4 ≤ length bytes.now }
    ensures { result ≡ number_at at 4 bytes.now }
{
    u32::from_le_bytes(bytes[at..at + 4].try_into().unwrap())
}

#[tactic(auto, using(crate::proofs::LittleEndian::number_8), unfolding(crate::specs::Numbers::number_at))]
pub fn u64_at(bytes: &[u8], at: usize) -> u64
    requires { at + 8 ≤ length bytes.now }
    ensures { result ≡ number_at at 8 bytes.now }
{
    u64::from_le_bytes(bytes[at..at + 8].try_into().unwrap())
}

// ---- writing
// One function for each width, reading and writing: `to_le_bytes` and `from_le_bytes` have an array of each type of their own.

#[tactic(auto, using(crate::proofs::Overwriting::overwriting), unfolding(crate::specs::Numbers::bytes_of))]
pub fn put_u8(bytes: &mut [u8], at: usize, number: u32)
    requires { at < length bytes.old }
    ensures { bytes.new ≡ overwritten at (bytes_of 1 number) bytes.old }
{
    bytes[at] = (number % 256) as u8;
}

#[tactic(auto, using(crate::proofs::LittleEndian::bytes_2))]
pub fn put_u16(bytes: &mut [u8], at: usize, number: u32)
    requires { at + 2 ≤ length bytes.old }
    ensures { bytes.new ≡ overwritten at (bytes_of 2 number) bytes.old }
{
    put_all(bytes, at, &number.to_le_bytes()[..2]);
}

#[tactic(auto, using(crate::proofs::LittleEndian::bytes_4))]
pub fn put_u32(bytes: &mut [u8], at: usize, number: u32)
    requires { at + 4 ≤ length bytes.old }
    ensures { bytes.new ≡ overwritten at (bytes_of 4 number) bytes.old }
{
    put_all(bytes, at, &number.to_le_bytes());
}

#[tactic(auto, using(crate::proofs::LittleEndian::bytes_8))]
pub fn put_u64(bytes: &mut [u8], at: usize, number: u64)
    requires { at + 8 ≤ length bytes.old }
    ensures { bytes.new ≡ overwritten at (bytes_of 8 number) bytes.old }
{
    put_all(bytes, at, &number.to_le_bytes());
}

// All of some bytes. A loop: by `copy_from_slice`, of a length that is no literal, the library for C would need `memmove` from outside.
pub fn put_all(bytes: &mut [u8], at: usize, part: &[u8])
    requires { at + length part.now ≤ length bytes.old }
    ensures { bytes.new ≡ overwritten at part.now bytes.old }
{
    for i in 0..part.len() {
        bytes[at + i] = part[i];
    }
}

// A sample as a key.
ghost use Rattle.std.specs.Prelude.{◌≡◌};
ghost use Rattle.c_answers.specs.Keys.{key_to_c};

// A sample cut toward zero: `whole` is 1 where that is an i64, else 0 beside the key 0.
#[repr(C)]
#[derive(Clone, Copy)]
pub struct LegendKey {
    pub key: i64,
    pub whole: u32,
}

pub fn key_to_c(cut: Option<i64>) -> LegendKey
    ensures { result ≡ key_to_c cut }
{
    match cut {
        Some(key) => LegendKey { key, whole: 1 },
        None => LegendKey { key: 0, whole: 0 },
    }
}

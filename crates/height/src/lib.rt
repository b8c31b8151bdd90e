// Heights in metres to one decimal: rounding apart from printing, the sign apart from the figures.
#![tactic(auto)]

ghost use Rattle.std.specs.Prelude.{◌≡◌, nat_abs};
ghost use Rattle.height.specs.Rounding.{is_half, tenths_of, former_tenths_of, metres_of};

// The sign, the whole metres and the tenth of a rounded height.
#[derive(Clone, Copy)]
pub struct Metres {
    pub below: bool,
    pub whole: u32,
    pub tenth: u32,
}

// The millimetres rounded to tenths of a metre, a half to the even one.
pub fn rounded(mm: i32) -> i32
    ensures { result ≡ tenths_of mm }
{
    let tenths = mm / 100;
    if half(mm) && tenths % 2 == 0 {
        return tenths;
    }
    away_from_zero(mm)
}

// Whether the millimetres lie halfway between two tenths.
fn half(mm: i32) -> bool
    ensures { result ≡ is_half (nat_abs mm) }
{
    (mm % 100).abs() == 50
}

// The millimetres rounded to tenths of a metre, a half away from zero: to the even one from an odd one.
fn away_from_zero(mm: i32) -> i32
    ensures { result ≡ former_tenths_of mm }
{
    let tenths = mm / 100;
    let rest = mm % 100;
    if 50 <= rest {
        return tenths + 1;
    }
    if rest <= -50 {
        return tenths - 1;
    }
    tenths
}

// A height as it is printed.
#[tactic(auto, unfolding(crate::specs::Rounding::metres_of))]
pub fn in_metres(mm: i32) -> Metres
    ensures { result ≡ metres_of mm }
{
    let tenths = rounded(mm);
    let figures = tenths.unsigned_abs();
    Metres {
        below: tenths < 0,
        whole: figures / 10,
        tenth: figures % 10,
    }
}

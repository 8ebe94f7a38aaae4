//! Signed numbers as numbers.

ghost use Rattle.std.specs.Prelude.{◌≡◌};
ghost use Rattle.obf_wire.specs.Zigzag.{zigzag, unzigzag};

/// The number that stands for a signed one, so that a small magnitude gives a small number: 0, -1, 1, -2 give
/// 0, 1, 2, 3.
pub fn zigzag(v: i64) -> u64
    ensures { result ≡ zigzag v }
{
    if v < 0 {
        2 * (-(v + 1)) as u64 + 1
    } else {
        2 * v as u64
    }
}

/// The signed number that `v` stands for.
pub fn unzigzag(v: u64) -> i64
    ensures { result ≡ unzigzag v }
{
    let half = (v / 2) as i64;
    if v % 2 == 0 { half } else { -half - 1 }
}

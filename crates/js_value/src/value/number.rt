//! Numbers: ECMA-262 5.1, 8.5, cut to the whole ones that are exact.

ghost use Rattle.std.specs.Prelude.{◌≤◌, ◌^◌, nat_abs};

/// A whole number from -2^53 to 2^53.
#[derive(Clone, Copy, Debug, PartialEq, Eq)]
pub struct Number {
    pub n: i64,
    pub ghost within: { nat_abs n ≤ 2 ^ 53 },
}

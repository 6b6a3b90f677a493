//! Comparisons of whole numbers, texts and truth values.

ghost use Rattle.std.specs.Prelude.{◌≡◌, IsTrue};
ghost use Rattle.go_const.specs.Operation.{is_comparison, is_logical};
ghost use Rattle.go_const.specs.Answer.{compares_numbers, compares_texts, compares_truth};

use gj_base::{Op, Text};

/// Whether an operator compares.
pub fn is_comparison(op: Op) -> bool
    ensures { result ≡ is_comparison op }
{
    match op {
        Op::Eq | Op::Ne | Op::Lt | Op::Le | Op::Gt | Op::Ge => true,
        _ => false,
    }
}

/// What a comparison says of two whole numbers.
pub fn compare_numbers(op: Op, x: i128, y: i128) -> bool
    requires { IsTrue (is_comparison op) }
    ensures { result ≡ compares_numbers op x y }
{
    match op {
        Op::Eq => x == y,
        Op::Ne => x != y,
        Op::Lt => x < y,
        Op::Le => x <= y,
        Op::Gt => x > y,
        Op::Ge => x >= y,
        _ => unreachable!(),
    }
}

/// What a comparison says of two byte strings.
///
/// Go, "Comparison operators": texts compare byte by byte, by the first difference.
pub fn compare_texts(op: Op, x: &Text, y: &Text) -> bool
    requires { IsTrue (is_comparison op) }
    ensures { result ≡ compares_texts op x.now y.now }
{
    match op {
        Op::Eq => *x == *y,
        Op::Ne => *x != *y,
        Op::Lt => *x < *y,
        Op::Le => *x <= *y,
        Op::Gt => *x > *y,
        Op::Ge => *x >= *y,
        _ => unreachable!(),
    }
}

/// What `&&`, `||`, `==` and `!=` say of two truth values.
pub fn compare_truth(op: Op, x: bool, y: bool) -> bool
    requires { IsTrue (is_logical op) }
    ensures { result ≡ compares_truth op x y }
{
    match op {
        Op::AndThen => x && y,
        Op::OrElse => x || y,
        Op::Eq => x == y,
        Op::Ne => x != y,
        _ => unreachable!(),
    }
}

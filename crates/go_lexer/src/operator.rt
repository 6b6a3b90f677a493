//! Operators and punctuation.

ghost use Rattle.std.specs.Prelude.{◌≡◌, ◌<◌, length, IfSome};
ghost use Rattle.go_lexer.specs.Operators as operators;
ghost use Rattle.go_syntax.specs.Spelling.{operator_text};

use go_syntax::Operator;

fn plus(b: u8) -> Operator
    ensures value { result ≡ operators.plus b }
    ensures second { 1 < length (operator_text result) → 0 < b }
    ensures third { length (operator_text result) < 3 }
{
    if b == b'=' {
        Operator::AddAssign
    } else if b == b'+' {
        Operator::Increment
    } else {
        Operator::Add
    }
}

fn minus(b: u8) -> Operator
    ensures value { result ≡ operators.minus b }
    ensures second { 1 < length (operator_text result) → 0 < b }
    ensures third { length (operator_text result) < 3 }
{
    if b == b'=' {
        Operator::SubAssign
    } else if b == b'-' {
        Operator::Decrement
    } else {
        Operator::Sub
    }
}

fn star(b: u8) -> Operator
    ensures value { result ≡ operators.star b }
    ensures second { 1 < length (operator_text result) → 0 < b }
    ensures third { length (operator_text result) < 3 }
{
    if b == b'=' {
        Operator::MulAssign
    } else {
        Operator::Mul
    }
}

fn slash(b: u8) -> Operator
    ensures value { result ≡ operators.slash b }
    ensures second { 1 < length (operator_text result) → 0 < b }
    ensures third { length (operator_text result) < 3 }
{
    if b == b'=' {
        Operator::DivAssign
    } else {
        Operator::Div
    }
}

fn percent(b: u8) -> Operator
    ensures value { result ≡ operators.percent b }
    ensures second { 1 < length (operator_text result) → 0 < b }
    ensures third { length (operator_text result) < 3 }
{
    if b == b'=' {
        Operator::RemAssign
    } else {
        Operator::Rem
    }
}

fn ampersand(b: u8, c: u8) -> Operator
    ensures value { result ≡ operators.ampersand b c }
    ensures second { 1 < length (operator_text result) → 0 < b }
    ensures third { 2 < length (operator_text result) → 0 < c }
{
    if b == b'^' {
        if c == b'=' {
            Operator::AndNotAssign
        } else {
            Operator::AndNot
        }
    } else if b == b'=' {
        Operator::AndAssign
    } else if b == b'&' {
        Operator::AndThen
    } else {
        Operator::And
    }
}

fn bar(b: u8) -> Operator
    ensures value { result ≡ operators.bar b }
    ensures second { 1 < length (operator_text result) → 0 < b }
    ensures third { length (operator_text result) < 3 }
{
    if b == b'=' {
        Operator::OrAssign
    } else if b == b'|' {
        Operator::OrElse
    } else {
        Operator::Or
    }
}

fn caret(b: u8) -> Operator
    ensures value { result ≡ operators.caret b }
    ensures second { 1 < length (operator_text result) → 0 < b }
    ensures third { length (operator_text result) < 3 }
{
    if b == b'=' {
        Operator::XorAssign
    } else {
        Operator::Xor
    }
}

fn less(b: u8, c: u8) -> Operator
    ensures value { result ≡ operators.less b c }
    ensures second { 1 < length (operator_text result) → 0 < b }
    ensures third { 2 < length (operator_text result) → 0 < c }
{
    if b == b'<' {
        if c == b'=' {
            Operator::ShlAssign
        } else {
            Operator::Shl
        }
    } else if b == b'-' {
        Operator::Arrow
    } else if b == b'=' {
        Operator::Le
    } else {
        Operator::Lt
    }
}

fn greater(b: u8, c: u8) -> Operator
    ensures value { result ≡ operators.greater b c }
    ensures second { 1 < length (operator_text result) → 0 < b }
    ensures third { 2 < length (operator_text result) → 0 < c }
{
    if b == b'>' {
        if c == b'=' {
            Operator::ShrAssign
        } else {
            Operator::Shr
        }
    } else if b == b'=' {
        Operator::Ge
    } else {
        Operator::Gt
    }
}

fn equals(b: u8) -> Operator
    ensures value { result ≡ operators.equals b }
    ensures second { 1 < length (operator_text result) → 0 < b }
    ensures third { length (operator_text result) < 3 }
{
    if b == b'=' {
        Operator::Eq
    } else {
        Operator::Assign
    }
}

fn bang(b: u8) -> Operator
    ensures value { result ≡ operators.bang b }
    ensures second { 1 < length (operator_text result) → 0 < b }
    ensures third { length (operator_text result) < 3 }
{
    if b == b'=' {
        Operator::Ne
    } else {
        Operator::Not
    }
}

fn colon(b: u8) -> Operator
    ensures value { result ≡ operators.colon b }
    ensures second { 1 < length (operator_text result) → 0 < b }
    ensures third { length (operator_text result) < 3 }
{
    if b == b'=' {
        Operator::Define
    } else {
        Operator::Colon
    }
}

fn dot(b: u8, c: u8) -> Operator
    ensures value { result ≡ operators.dot b c }
    ensures second { 1 < length (operator_text result) → 0 < b }
    ensures third { 2 < length (operator_text result) → 0 < c }
{
    if b == b'.' && c == b'.' {
        Operator::Ellipsis
    } else {
        Operator::Dot
    }
}

#[tactic(auto, unfolding(crate::specs::Operators::punctuation))]
fn punctuation(a: u8) -> Option<Operator>
    ensures value { result ≡ operators.punctuation a }
    ensures second { IfSome result (λ o. length (operator_text o) < 2) }
{
    if a == b'(' {
        Some(Operator::LeftParen)
    } else if a == b')' {
        Some(Operator::RightParen)
    } else if a == b'[' {
        Some(Operator::LeftBracket)
    } else if a == b']' {
        Some(Operator::RightBracket)
    } else if a == b'{' {
        Some(Operator::LeftBrace)
    } else if a == b'}' {
        Some(Operator::RightBrace)
    } else if a == b',' {
        Some(Operator::Comma)
    } else {
        None
    }
}

/// The longest operator or punctuation that begins with these bytes.
#[tactic(auto, unfolding(crate::specs::Operators::operator_of))]
pub(crate) fn operator_of(a: u8, b: u8, c: u8) -> Option<Operator>
    ensures value { result ≡ operators.operator_of a b c }
    ensures second { IfSome result (λ o. 1 < length (operator_text o) → 0 < b) }
    ensures third { IfSome result (λ o. 2 < length (operator_text o) → 0 < c) }
    ensures within { IfSome result (λ o. length (operator_text o) < 4) }
{
    if a == b'+' {
        Some(plus(b))
    } else if a == b'-' {
        Some(minus(b))
    } else if a == b'*' {
        Some(star(b))
    } else if a == b'/' {
        Some(slash(b))
    } else if a == b'%' {
        Some(percent(b))
    } else if a == b'&' {
        Some(ampersand(b, c))
    } else if a == b'|' {
        Some(bar(b))
    } else if a == b'^' {
        Some(caret(b))
    } else if a == b'<' {
        Some(less(b, c))
    } else if a == b'>' {
        Some(greater(b, c))
    } else if a == b'=' {
        Some(equals(b))
    } else if a == b'!' {
        Some(bang(b))
    } else if a == b':' {
        Some(colon(b))
    } else if a == b'.' {
        Some(dot(b, c))
    } else {
        punctuation(a)
    }
}

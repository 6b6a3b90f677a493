//! Functions by their names: ECMA-262 5.1, 10.3.1.

ghost use Rattle.std.specs.Prelude.{◌≡◌, false, IfSome, IfNone};
ghost use Rattle.std.specs.List.{list_any};
ghost use Rattle.js_steps.specs.Bodies.{IsNamed, has_name};

use crate::bodies::body::Body;
use gj_base::Text;

// Whether a body is that of a function with a name.
fn has_name(body: &Body, x: &Text) -> bool
    ensures value { result ≡ has_name x.now body.now }
{
    match body.function {
        Some(f) => f.name.as_bytes() == x.as_bytes(),
        None => false,
    }
}

// The function with a name, by its number, where the number is right.
fn numbered<'p, 'a>(functions: &'p [Body<'a>], n: u32, x: &Text) -> Option<&'p Body<'a>>
    ensures found { IfSome result (λ b. IsNamed functions.now x.now b.now) }
{
    match functions.get(n as usize) {
        Some(body) => {
            if has_name(body, x) {
                return Some(body);
            }
            None
        }
        None => None,
    }
}

fn named<'p, 'a>(functions: &'p [Body<'a>], x: &Text) -> Option<&'p Body<'a>>
    ensures found { IfSome result (λ b. IsNamed functions.now x.now b.now) }
    ensures none { IfNone result (list_any (has_name x.now) functions.now ≡ false) }
{
    for body in functions {
        if has_name(body, x) {
            return Some(body);
        }
    }
    None
}

/// The function with a name, which mostly has this number.
pub fn find_body<'p, 'a>(functions: &'p [Body<'a>], n: u32, x: &Text) -> Option<&'p Body<'a>>
    ensures found { IfSome result (λ b. IsNamed functions.now x.now b.now) }
    ensures none { IfNone result (list_any (has_name x.now) functions.now ≡ false) }
{
    match numbered(functions, n, x) {
        Some(body) => Some(body),
        None => named(functions, x),
    }
}

//! The name that declares nothing.
//!
//! Go, "Blank identifier".

ghost use Rattle.std.specs.Prelude.{◌≡◌};
ghost use Rattle.go_typing.specs.Env.{is_blank};

use gj_base::Text;

/// Whether a name is `_`.
pub fn is_blank(x: &Text) -> bool
    ensures value { result ≡ is_blank x.now }
{
    x.as_bytes() == b"_".as_slice()
}

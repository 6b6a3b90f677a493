//! Laws of the definitions. No function here does anything.

ghost use Rattle.std.specs.Prelude.{◌≡◌, List, Option};
ghost use Rattle.gj_base.specs.declared.place.Place as place;
ghost use Rattle.go_syntax.specs.Tree as t;
ghost use Rattle.go_typing.specs.Scopes.{without_last};
ghost use Rattle.go_typing.specs.Walk as go;
ghost use Rattle.go_typing.specs.Functions.{Between, functions_from};
ghost use Rattle.go_decls.specs.Heads.{Head, heads_from, body_by, functions_by};

/// The functions of a package go by what is known of each before its body.
pub fn functions()
    ensures by_heads { (far : Option place.Place) (w : go.Walk) (ds : List t.Decl) (k : Between) → functions_by w (heads_from far w ds) k ≡ functions_from far w ds k }
{}

/// A body leaves the scopes around it as they were.
pub fn bodies()
    ensures leave_scopes { (w : go.Walk) (k : Between) (h : Head) → without_last (body_by w k h).walk.scopes ≡ w.scopes }
{}

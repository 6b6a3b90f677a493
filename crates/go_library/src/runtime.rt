//! The package `runtime`.

/// The text of the package `runtime`.
pub const RUNTIME: &str = r#"// Package runtime has what programs see of the running program.
package runtime

import "internal/host"

// An Error is a panic of the language itself.
type Error interface {
    error
    RuntimeError()
}

// Gosched lets other goroutines run first.
func Gosched() { host.Yield() }
"#;

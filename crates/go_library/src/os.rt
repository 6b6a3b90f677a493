//! The package `os`.

/// The text of the package `os`.
pub const OS: &str = r#"// Package os ends the program.
package os

import "internal/host"

// Exit ends the program at once with the low 8 bits of a status.
func Exit(code int) { host.Exit(code) }
"#;

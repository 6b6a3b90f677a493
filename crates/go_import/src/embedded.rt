//! The packages whose texts come with the compiler.

/// The text of the embedded package with this path, if it is one.
pub fn embedded_text(path: &[u8]) -> Option<&'static str> {
    match path {
        b"errors" => Some(go_library::ERRORS),
        b"fmt" => Some(go_library::FMT),
        b"os" => Some(go_library::OS),
        b"runtime" => Some(go_library::RUNTIME),
        b"strconv" => Some(go_library::STRCONV),
        b"strings" => Some(go_library::STRINGS),
        b"sync" => Some(go_library::SYNC),
        _ => None,
    }
}

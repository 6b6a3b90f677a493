//! Import paths.

/// The path of the compiler's own functions, which only embedded packages import.
pub const HOST: &[u8] = b"internal/host";

/// Whether a path may be looked up: it isn't empty, has no element `.` or `..`, and no byte but letters,
/// digits and `_-./`.
pub fn is_import_path(path: &[u8]) -> bool {
    path.len() > 0 && has_only_path_bytes(path) && !has_dots(path)
}

fn has_only_path_bytes(path: &[u8]) -> bool {
    for byte in path {
        match *byte {
            b'a'..=b'z' | b'A'..=b'Z' | b'0'..=b'9' | b'_' | b'-' | b'.' | b'/' => {}
            _ => return false,
        }
    }
    true
}

// Whether an element is `.` or `..`: one or two dots between slashes or ends.
fn has_dots(path: &[u8]) -> bool {
    let mut dots = 0u32;
    let mut is_dotted = true;
    for byte in path {
        match *byte {
            b'/' => {
                if is_dotted && is_one_or_two(dots) {
                    return true;
                }
                dots = 0;
                is_dotted = true;
            }
            b'.' => dots = dots.saturating_add(1),
            _ => is_dotted = false,
        }
    }
    is_dotted && is_one_or_two(dots)
}

fn is_one_or_two(dots: u32) -> bool {
    dots == 1 || dots == 2
}

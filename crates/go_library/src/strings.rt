//! The package `strings`.

/// The text of the package `strings`.
pub const STRINGS: &str = r#"// Package strings has functions on strings.
package strings

// Index is where a part first stands in a string, or -1.
func Index(s, part string) int {
    size := len(part)
    if size == 0 {
        return 0
    }
    first := part[0]
    for i := 0; i <= len(s)-size; i++ {
        if s[i] == first && s[i:i+size] == part {
            return i
        }
    }
    return -1
}

// Contains tells whether a part stands in a string.
func Contains(s, part string) bool { return Index(s, part) >= 0 }

// HasPrefix tells whether a string begins with a part.
func HasPrefix(s, part string) bool { return len(s) >= len(part) && s[:len(part)] == part }

// HasSuffix tells whether a string ends with a part.
func HasSuffix(s, part string) bool { return len(s) >= len(part) && s[len(s)-len(part):] == part }

// Join joins strings with a separator between them.
func Join(parts []string, sep string) string {
    s := ""
    for i, part := range parts {
        if i > 0 {
            s += sep
        }
        s += part
    }
    return s
}

// Repeat repeats a string.
func Repeat(s string, count int) string {
    if count < 0 {
        panic("strings: negative Repeat count")
    }
    all := ""
    for ; count > 0; count >>= 1 {
        if count&1 == 1 {
            all += s
        }
        if count > 1 {
            s += s
        }
    }
    return all
}

// Split cuts a string at each separator, or after each character where that is empty.
func Split(s, sep string) []string {
    if sep == "" {
        return characters(s)
    }
    parts := []string{}
    for {
        i := Index(s, sep)
        if i < 0 {
            return append(parts, s)
        }
        parts = append(parts, s[:i])
        s = s[i+len(sep):]
    }
}

func characters(s string) []string {
    parts := []string{}
    from := 0
    for i := range s {
        if i > 0 {
            parts = append(parts, s[from:i])
        }
        from = i
    }
    if s != "" {
        parts = append(parts, s[from:])
    }
    return parts
}

func isSpace(r rune) bool {
    switch r {
    case ' ', '\t', '\n', '\v', '\f', '\r', 0x85, 0xa0, 0x1680, 0x2028, 0x2029, 0x202f, 0x205f, 0x3000:
        return true
    }
    return 0x2000 <= r && r <= 0x200a
}

// Fields gives the parts of a string between white space.
func Fields(s string) []string {
    parts := []string{}
    from := -1
    for i, r := range s {
        if !isSpace(r) {
            if from < 0 {
                from = i
            }
        } else if from >= 0 {
            parts = append(parts, s[from:i])
            from = -1
        }
    }
    if from >= 0 {
        parts = append(parts, s[from:])
    }
    return parts
}

// TrimSpace cuts white space off both ends of a string.
func TrimSpace(s string) string {
    from, to := -1, -1
    for i, r := range s {
        if !isSpace(r) {
            if from < 0 {
                from = i
            }
            to = -1
        } else if to < 0 {
            to = i
        }
    }
    if from < 0 {
        return ""
    }
    if to < 0 {
        return s[from:]
    }
    return s[from:to]
}

// A Builder gathers a string.
type Builder struct {
    s string
}

// WriteString adds a string.
func (b *Builder) WriteString(s string) (int, error) {
    b.s += s
    return len(s), nil
}

// WriteByte adds a byte.
func (b *Builder) WriteByte(c byte) error {
    b.s += string([]byte{c})
    return nil
}

// String is what was gathered.
func (b *Builder) String() string { return b.s }

// Len is how many bytes were gathered.
func (b *Builder) Len() int { return len(b.s) }
"#;

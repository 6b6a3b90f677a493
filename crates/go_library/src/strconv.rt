//! The package `strconv`.

/// The text of the package `strconv`.
pub const STRCONV: &str = r#"// Package strconv goes between values and their texts.
package strconv

import "errors"

const digits = "0123456789abcdefghijklmnopqrstuvwxyz"

// FormatBool is the text of a truth value.
func FormatBool(b bool) string {
    if b {
        return "true"
    }
    return "false"
}

// Itoa is the decimal text of a number.
func Itoa(i int) string {
    if i < 0 {
        return "-" + short(-uint32(i), 10)
    }
    return short(uint32(i), 10)
}

// FormatInt is the text of a number in a base from 2 to 36.
func FormatInt(i int64, base int) string {
    if base < 2 || base > 36 {
        panic("strconv: illegal AppendInt/FormatInt base")
    }
    if i >= 0 {
        return long(uint64(i), uint32(base))
    }
    return "-" + long(-uint64(i), uint32(base))
}

func short(u, base uint32) string {
    s := ""
    for u >= base {
        digit := u % base
        s = digits[digit:digit+1] + s
        u /= base
    }
    return digits[u:u+1] + s
}

// A long number is cut into pieces of as many digits as fit into 32 bits.
func long(u uint64, base uint32) string {
    piece, width := base, 1
    for piece <= (1<<32-1)/base {
        piece *= base
        width++
    }
    s := ""
    for u>>32 != 0 {
        rest := u / uint64(piece)
        part := short(uint32(u-rest*uint64(piece)), base)
        for len(part) < width {
            part = "0" + part
        }
        s = part + s
        u = rest
    }
    part := short(uint32(u), base)
    return part + s
}

type parseError struct {
    call, text string
    cause      error
}

func (e *parseError) Error() string {
    return "strconv." + e.call + ": parsing \"" + e.text + "\": " + e.cause.Error()
}

func (e *parseError) Unwrap() error { return e.cause }

var (
    errSyntax = errors.New("invalid syntax")
    errRange  = errors.New("value out of range")
)

// ParseBool is the truth value of a text.
func ParseBool(s string) (bool, error) {
    switch s {
    case "1", "t", "T", "true", "TRUE", "True":
        return true, nil
    case "0", "f", "F", "false", "FALSE", "False":
        return false, nil
    }
    return false, &parseError{"ParseBool", s, errSyntax}
}

// Atoi is the number with a decimal text.
func Atoi(s string) (int, error) {
    if n, ok := few(s); ok {
        return n, nil
    }
    n, err := parse("Atoi", s, 10, 32)
    return int(n), err
}

// few is a number of at most nine digits.
func few(s string) (n int, ok bool) {
    from := 0
    if s != "" && (s[0] == '-' || s[0] == '+') {
        from = 1
    }
    if len(s) == from || len(s) > from+9 {
        return 0, false
    }
    for i := from; i < len(s); i++ {
        digit := s[i] - '0'
        if digit > 9 {
            return 0, false
        }
        n = n*10 + int(digit)
    }
    if s[0] == '-' {
        n = -n
    }
    return n, true
}

// ParseInt is the number of so many bits, 0 for those of an int, with a text in a base from 2 to 36, or 0
// where the text's prefix says the base.
func ParseInt(s string, base int, bitSize int) (int64, error) {
    return parse("ParseInt", s, base, bitSize)
}

func parse(call, s string, base, bits int) (int64, error) {
    size, negative, cause := unsigned(s, base, bits)
    if cause != nil && cause != errRange {
        return 0, &parseError{call, s, cause}
    }
    if bits == 0 {
        bits = 32
    }
    limit := uint64(1) << uint(bits-1)
    if negative {
        if size > limit {
            return -int64(limit), &parseError{call, s, errRange}
        }
        return -int64(size), nil
    }
    if size >= limit {
        return int64(limit - 1), &parseError{call, s, errRange}
    }
    return int64(size), nil
}

// unsigned is the size of a number, with whether it has a minus.
func unsigned(s string, base, bits int) (size uint64, negative bool, cause error) {
    if s == "" {
        return 0, false, errSyntax
    }
    if s[0] == '-' || s[0] == '+' {
        negative = s[0] == '-'
        s = s[1:]
    }
    if s == "" {
        return 0, negative, errSyntax
    }
    free := base == 0
    if free {
        base, s = prefixed(s)
    }
    switch {
    case base < 2 || base > 36:
        return 0, negative, errors.New("invalid base " + Itoa(base))
    case bits < 0 || bits > 64:
        return 0, negative, errors.New("invalid bit size " + Itoa(bits))
    case bits == 0:
        bits = 32
    }
    size, cause = sum(s, uint64(base), ^uint64(0)>>uint(64-bits), free)
    return size, negative, cause
}

// prefixed is the base that a text's prefix says, and the text from there on. A leading 0 of a number of
// base 8 stays.
func prefixed(s string) (int, string) {
    if s[0] != '0' {
        return 10, s
    }
    if len(s) > 2 {
        switch s[1] {
        case 'b', 'B':
            return 2, "0" + s[2:]
        case 'o', 'O':
            return 8, "0" + s[2:]
        case 'x', 'X':
            return 16, "0" + s[2:]
        }
    }
    return 8, s
}

// sum adds up the digits of a number of at most the limit. Where the base is free, an underscore may stand
// between two digits.
func sum(s string, base, limit uint64, free bool) (size uint64, cause error) {
    most := limit / base
    before, misplaced := false, false
    for i := 0; i < len(s); i++ {
        if s[i] == '_' && free {
            misplaced = misplaced || !before
            before = false
            continue
        }
        digit := uint64(digitOf(s[i]))
        if digit >= base {
            return 0, errSyntax
        }
        if size > most || limit-size*base < digit {
            return limit, errRange
        }
        size = size*base + digit
        before = true
    }
    if misplaced || !before {
        return 0, errSyntax
    }
    return size, nil
}

func digitOf(c byte) byte {
    switch {
    case '0' <= c && c <= '9':
        return c - '0'
    case 'a' <= c && c <= 'z':
        return c - 'a' + 10
    case 'A' <= c && c <= 'Z':
        return c - 'A' + 10
    }
    return 255
}
"#;

//! The package `fmt`.

/// The text of the package `fmt`.
pub const FMT: &str = r#"// Package fmt writes values as text.
package fmt

import (
    "errors"
    "internal/host"
    "strconv"
)

// A Stringer has a text of its own.
type Stringer interface {
    String() string
}

// Print writes values, with a space between two of which none is a string.
func Print(values ...interface{}) (int, error) { return write(Sprint(values...)) }

// Println writes values, with a space between any two, and a newline.
func Println(values ...interface{}) (int, error) { return write(Sprintln(values...)) }

// Printf writes values as a format says.
func Printf(format string, values ...interface{}) (int, error) {
    return write(Sprintf(format, values...))
}

func write(s string) (int, error) {
    host.Write(s)
    return len(s), nil
}

// Errorf is an error whose text a format says.
func Errorf(format string, values ...interface{}) error {
    return errors.New(Sprintf(format, values...))
}

// Sprint is what Print writes.
func Sprint(values ...interface{}) string {
    s := ""
    before := true
    for _, value := range values {
        _, is := host.Basic(value).(string)
        if !is && !before {
            s += " "
        }
        before = is
        part, _ := textOf(value)
        s += part
    }
    return s
}

// Sprintln is what Println writes.
func Sprintln(values ...interface{}) string {
    s := ""
    for i, value := range values {
        if i > 0 {
            s += " "
        }
        part, _ := textOf(value)
        s += part
    }
    return s + "\n"
}

// A kind is what a text stands for.
type kind int

const (
    unfit kind = iota
    other
    number
)

func textOf(value interface{}) (string, kind) {
    switch v := value.(type) {
    case nil:
        return "<nil>", other
    case string:
        return v, other
    case int:
        return strconv.Itoa(v), number
    case error:
        return v.Error(), other
    case Stringer:
        return v.String(), other
    case []int:
        s, sep := "[", ""
        for _, part := range v {
            s += sep + strconv.Itoa(part)
            sep = " "
        }
        return s + "]", other
    case []string:
        s, sep := "[", ""
        for _, part := range v {
            s += sep + part
            sep = " "
        }
        return s + "]", other
    }
    switch v := host.Basic(value).(type) {
    case string:
        return v, other
    case bool:
        return strconv.FormatBool(v), other
    default:
        if s, is := digitsOf(v, 10); is == number {
            return s, number
        }
    }
    return "%!v(composite)", other
}

// digitsOf is the text of an integer in a base.
func digitsOf(value interface{}, base int) (string, kind) {
    n, wide, is := integer(value)
    if !is {
        return "", unfit
    }
    if wide {
        u, b := uint64(n), uint64(base)
        return strconv.FormatInt(int64(u/b), base) + strconv.FormatInt(int64(u%b), base), number
    }
    return strconv.FormatInt(n, base), number
}

// integer is the value of an integer; one past the numbers of int64 is wide, and comes less 2^64.
func integer(value interface{}) (n int64, wide, is bool) {
    switch v := value.(type) {
    case int:
        return int64(v), false, true
    case int8:
        return int64(v), false, true
    case int16:
        return int64(v), false, true
    case int32:
        return int64(v), false, true
    case int64:
        return v, false, true
    case uint:
        return int64(v), false, true
    case uint8:
        return int64(v), false, true
    case uint16:
        return int64(v), false, true
    case uint32:
        return int64(v), false, true
    case uint64:
        return int64(v), int64(v) < 0, true
    case uintptr:
        return int64(v), false, true
    }
    return 0, false, false
}

// A layout is what a verb asks for. The verb is -1 where the format ends before it.
type layout struct {
    verb       rune
    width      int
    left, zero bool
}

// Sprintf is what Printf writes.
func Sprintf(format string, values ...interface{}) string {
    s := ""
    from, next := 0, 0
    for i := 0; i < len(format); i++ {
        if format[i] != '%' {
            continue
        }
        s += format[from:i]
        var l layout
        from = l.read(format, i+1)
        i = from - 1
        switch {
        case l.verb == '%':
            s += "%"
        case l.verb < 0 || next >= len(values):
            s += l.bad()
        default:
            s += l.value(values[next])
            next++
        }
    }
    return s + format[from:]
}

// read reads flags, a width and a verb, and gives where they end.
func (l *layout) read(format string, i int) int {
    for ; i < len(format) && (format[i] == '-' || format[i] == '0'); i++ {
        if format[i] == '-' {
            l.left = true
        } else {
            l.zero = true
        }
    }
    for ; i < len(format) && '0' <= format[i] && format[i] <= '9'; i++ {
        l.width = l.width*10 + int(format[i]-'0')
        if l.width > 1000000 {
            i = len(format)
            break
        }
    }
    if i == len(format) {
        l.verb = -1
        return i
    }
    if format[i] < 0x80 {
        l.verb = rune(format[i])
        return i + 1
    }
    for size, r := range format[i:] {
        if size > 0 {
            return i + size
        }
        l.verb = r
    }
    return len(format)
}

func (l *layout) bad() string {
    if l.verb < 0 {
        return "%!(bad)"
    }
    return "%!" + string(l.verb) + "(bad)"
}

// value is the text of a value. A list is laid out part by part.
func (l *layout) value(value interface{}) string {
    switch v := value.(type) {
    case []int:
        if l.verb == 'v' || l.verb == 'd' || l.verb == 'x' || l.verb == 'c' {
            s, sep := "[", ""
            for _, part := range v {
                s += sep + l.value(part)
                sep = " "
            }
            return s + "]"
        }
    case []string:
        if l.verb == 'v' || l.verb == 's' || l.verb == 'x' {
            s, sep := "[", ""
            for _, part := range v {
                s += sep + l.value(part)
                sep = " "
            }
            return s + "]"
        }
    }
    s, is := form(l.verb, value)
    if is == unfit {
        return l.bad()
    }
    return l.pad(s, is == number)
}

func form(verb rune, value interface{}) (string, kind) {
    switch verb {
    case 'v':
        return textOf(value)
    case 's':
        return ownText(value)
    case 'x':
        if s, is := ownText(value); is != unfit {
            return hexadecimal(s), other
        }
        return digitsOf(host.Basic(value), 16)
    case 'd':
        return digitsOf(host.Basic(value), 10)
    case 'c':
        n, wide, is := integer(host.Basic(value))
        switch {
        case !is:
            return "", unfit
        case wide || n < 0 || n > 0x10ffff:
            return "\uFFFD", other
        }
        return string(rune(n)), other
    case 't':
        if b, is := host.Basic(value).(bool); is {
            return strconv.FormatBool(b), other
        }
    }
    return "", unfit
}

// ownText is the text of a value that has a method for it or is a string.
func ownText(value interface{}) (string, kind) {
    switch v := value.(type) {
    case error:
        return v.Error(), other
    case Stringer:
        return v.String(), other
    }
    if s, is := host.Basic(value).(string); is {
        return s, other
    }
    return "", unfit
}

func hexadecimal(s string) string {
    const digits = "0123456789abcdef"
    all := ""
    for i := 0; i < len(s); i++ {
        high, low := s[i]>>4, s[i]&15
        all += digits[high:high+1] + digits[low:low+1]
    }
    return all
}

// pad fills a text up to the width, which counts characters. Zeros come after the sign of a number.
func (l *layout) pad(s string, isNumber bool) string {
    if l.width == 0 {
        return s
    }
    count := l.width
    for range s {
        count--
    }
    fill, sign := " ", ""
    if l.zero && !l.left {
        fill = "0"
        if isNumber && s[0] == '-' {
            sign, s = "-", s[1:]
        }
    }
    padding := ""
    for ; count > 0; count-- {
        padding += fill
    }
    if l.left {
        return s + padding
    }
    return sign + padding + s
}
"#;

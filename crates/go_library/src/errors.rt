//! The package `errors`.

/// The text of the package `errors`.
pub const ERRORS: &str = r#"// Package errors makes errors and compares them.
package errors

type textError struct {
    text string
}

func (e *textError) Error() string { return e.text }

// New makes an error with a text. No two are equal.
func New(text string) error { return &textError{text} }

type wrapper interface {
    Unwrap() error
}

// Unwrap is what an error says that it wraps, or nil.
func Unwrap(err error) error {
    if w, ok := err.(wrapper); ok {
        return w.Unwrap()
    }
    return nil
}

type matcher interface {
    Is(target error) bool
}

// Is tells whether an error, or one that it wraps, is the target or says that it matches it.
func Is(err, target error) bool {
    for err != nil && target != nil {
        if err == target {
            return true
        }
        if m, ok := err.(matcher); ok && m.Is(target) {
            return true
        }
        err = Unwrap(err)
    }
    return err == target
}
"#;

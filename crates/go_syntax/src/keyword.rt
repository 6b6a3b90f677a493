//! Keywords.

ghost use Rattle.std.specs.Prelude.{◌≡◌};
ghost use Rattle.go_syntax.specs.Spelling.{keyword_text};

/// A keyword. Go specification, "Keywords".
#[derive(Clone, Copy, Debug, PartialEq, Eq)]
pub enum Keyword {
    Break,
    Case,
    Chan,
    Const,
    Continue,
    Default,
    Defer,
    Else,
    Fallthrough,
    For,
    Func,
    Go,
    Goto,
    If,
    Import,
    Interface,
    Map,
    Package,
    Range,
    Return,
    Select,
    Struct,
    Switch,
    Type,
    Var,
}

impl Keyword {
    /// How it is written.
    pub fn text(self) -> &'static [u8]
        ensures { result.now ≡ keyword_text self }
    {
        match self {
            Keyword::Break => b"break",
            Keyword::Case => b"case",
            Keyword::Chan => b"chan",
            Keyword::Const => b"const",
            Keyword::Continue => b"continue",
            Keyword::Default => b"default",
            Keyword::Defer => b"defer",
            Keyword::Else => b"else",
            Keyword::Fallthrough => b"fallthrough",
            Keyword::For => b"for",
            Keyword::Func => b"func",
            Keyword::Go => b"go",
            Keyword::Goto => b"goto",
            Keyword::If => b"if",
            Keyword::Import => b"import",
            Keyword::Interface => b"interface",
            Keyword::Map => b"map",
            Keyword::Package => b"package",
            Keyword::Range => b"range",
            Keyword::Return => b"return",
            Keyword::Select => b"select",
            Keyword::Struct => b"struct",
            Keyword::Switch => b"switch",
            Keyword::Type => b"type",
            Keyword::Var => b"var",
        }
    }
}

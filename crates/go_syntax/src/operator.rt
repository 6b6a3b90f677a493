//! Operators and punctuation.

ghost use Rattle.std.specs.Prelude.{◌≡◌};
ghost use Rattle.go_syntax.specs.Spelling.{operator_text};

/// An operator or a punctuation, `;` aside. Go specification, "Operators and punctuation".
#[derive(Clone, Copy, Debug, PartialEq, Eq)]
pub enum Operator {
    /// `+`
    Add,
    /// `-`
    Sub,
    /// `*`
    Mul,
    /// `/`
    Div,
    /// `%`
    Rem,
    /// `&`
    And,
    /// `|`
    Or,
    /// `^`
    Xor,
    /// `<<`
    Shl,
    /// `>>`
    Shr,
    /// `&^`
    AndNot,
    /// `+=`
    AddAssign,
    /// `-=`
    SubAssign,
    /// `*=`
    MulAssign,
    /// `/=`
    DivAssign,
    /// `%=`
    RemAssign,
    /// `&=`
    AndAssign,
    /// `|=`
    OrAssign,
    /// `^=`
    XorAssign,
    /// `<<=`
    ShlAssign,
    /// `>>=`
    ShrAssign,
    /// `&^=`
    AndNotAssign,
    /// `&&`
    AndThen,
    /// `||`
    OrElse,
    /// `<-`
    Arrow,
    /// `++`
    Increment,
    /// `--`
    Decrement,
    /// `==`
    Eq,
    /// `<`
    Lt,
    /// `>`
    Gt,
    /// `=`
    Assign,
    /// `!`
    Not,
    /// `!=`
    Ne,
    /// `<=`
    Le,
    /// `>=`
    Ge,
    /// `:=`
    Define,
    /// `...`
    Ellipsis,
    /// `(`
    LeftParen,
    /// `)`
    RightParen,
    /// `[`
    LeftBracket,
    /// `]`
    RightBracket,
    /// `{`
    LeftBrace,
    /// `}`
    RightBrace,
    /// `,`
    Comma,
    /// `.`
    Dot,
    /// `:`
    Colon,
}

impl Operator {
    /// How it is written.
    pub fn text(self) -> &'static [u8]
        ensures { result.now ≡ operator_text self }
    {
        match self {
            Operator::Add => b"+",
            Operator::Sub => b"-",
            Operator::Mul => b"*",
            Operator::Div => b"/",
            Operator::Rem => b"%",
            Operator::And => b"&",
            Operator::Or => b"|",
            Operator::Xor => b"^",
            Operator::Shl => b"<<",
            Operator::Shr => b">>",
            Operator::AndNot => b"&^",
            Operator::AddAssign => b"+=",
            Operator::SubAssign => b"-=",
            Operator::MulAssign => b"*=",
            Operator::DivAssign => b"/=",
            Operator::RemAssign => b"%=",
            Operator::AndAssign => b"&=",
            Operator::OrAssign => b"|=",
            Operator::XorAssign => b"^=",
            Operator::ShlAssign => b"<<=",
            Operator::ShrAssign => b">>=",
            Operator::AndNotAssign => b"&^=",
            Operator::AndThen => b"&&",
            Operator::OrElse => b"||",
            Operator::Arrow => b"<-",
            Operator::Increment => b"++",
            Operator::Decrement => b"--",
            Operator::Eq => b"==",
            Operator::Lt => b"<",
            Operator::Gt => b">",
            Operator::Assign => b"=",
            Operator::Not => b"!",
            Operator::Ne => b"!=",
            Operator::Le => b"<=",
            Operator::Ge => b">=",
            Operator::Define => b":=",
            Operator::Ellipsis => b"...",
            Operator::LeftParen => b"(",
            Operator::RightParen => b")",
            Operator::LeftBracket => b"[",
            Operator::RightBracket => b"]",
            Operator::LeftBrace => b"{",
            Operator::RightBrace => b"}",
            Operator::Comma => b",",
            Operator::Dot => b".",
            Operator::Colon => b":",
        }
    }
}

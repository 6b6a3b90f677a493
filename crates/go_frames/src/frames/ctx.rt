//! Where an expression or a type stands.

ghost use Rattle.std.specs.Prelude.{◌≡◌};
ghost use Rattle.go_grammar.specs.Limits.{has_room, one_longer};
ghost use Rattle.go_grammar.specs.Frames.{new_ctx, header_ctx, deeper, inside};
ghost use Rattle.go_frames.specs.FrameView.{ctx_view};

/// How much may be open at a time, of blocks and of what counts in expressions and types.
pub const DEEPEST: u32 = 100;

/// How long a chain may be.
pub const LONGEST: u32 = 500;

/// What is open round an expression or a type.
#[derive(Clone, Copy)]
pub struct Ctx {
    /// how much that counts is open, from the innermost statement on
    pub depth: u32,
    /// how many blocks are open
    pub blocks: u32,
    /// whether it stands in a header, outside all brackets
    pub header: bool,
    /// whether `.(type)` may end it
    pub guard: bool,
}

impl Ctx {
    /// At the start of a statement or a declaration.
    pub fn new(blocks: u32) -> Ctx
        ensures value { ctx_view result ≡ new_ctx blocks }
    {
        Ctx {
            depth: 0,
            blocks,
            header: false,
            guard: false,
        }
    }

    /// At the start of an expression in a header.
    pub fn header(blocks: u32) -> Ctx
        ensures value { ctx_view result ≡ header_ctx blocks }
    {
        Ctx {
            depth: 0,
            blocks,
            header: true,
            guard: false,
        }
    }

    /// The same place, where `.(type)` may end the expression, or may not.
    pub fn with_guard(self, guard: bool) -> Ctx
        ensures value { ctx_view result ≡ record (ctx_view self) { guard = guard } }
    {
        Ctx {
            depth: self.depth,
            blocks: self.blocks,
            header: self.header,
            guard,
        }
    }

    /// Whether one more may be open.
    pub fn has_room(self) -> bool
        ensures value { result ≡ has_room self.depth }
    {
        self.depth < DEEPEST
    }

    /// After a prefix.
    pub fn deeper(self) -> Ctx
        ensures value { ctx_view result ≡ deeper (ctx_view self) }
    {
        Ctx {
            depth: if self.depth < DEEPEST {
                self.depth + 1
            } else {
                self.depth
            },
            blocks: self.blocks,
            header: self.header,
            guard: self.guard,
        }
    }

    /// In brackets.
    pub fn inside(self) -> Ctx
        ensures value { ctx_view result ≡ inside (ctx_view self) }
    {
        Ctx {
            depth: if self.depth < DEEPEST {
                self.depth + 1
            } else {
                self.depth
            },
            blocks: self.blocks,
            header: false,
            guard: false,
        }
    }
}

/// One more part of a chain that isn't full.
pub fn one_more(count: u32) -> u32
    ensures value { result ≡ one_longer count }
{
    if count < LONGEST { count + 1 } else { count }
}

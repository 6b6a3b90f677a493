//! Laws of the grammar of scripts, each on a function with an empty body: what tokens a text has,
//! and what tree tokens have.

ghost use Rattle.js_grammar.specs.Laws.{FindsTokens, HasOneList, ReadsScripts, HaveOneTree, HasOneTree, ReadsOnce};
ghost use Rattle.js_grammar.specs.Nesting.{PrintsWhereNested};
ghost use Rattle.js_grammar.specs.ReadBack.{ReadsBack, ReadsOnlyBack, HasNoText};

/// `token_at` finds exactly the token that a text begins with: ECMA-262 5.1, 7.5 to 7.8.
pub fn finds_tokens()
    ensures { FindsTokens }
{}

/// A text is at most one list of tokens.
pub fn one_list()
    ensures { HasOneList }
{}

/// Reading from left to right comes to a tree exactly where the tokens are a script with this tree:
/// ECMA-262 5.1, 11 to 14.
pub fn reads_scripts()
    ensures { ReadsScripts }
{}

/// A reading that comes to a tree is the only one, want of memory aside.
pub fn reads_once()
    ensures { ReadsOnce }
{}

/// Tokens are a script with at most one tree.
pub fn one_tree()
    ensures { HaveOneTree }
{}

/// Bytes are a script with at most one tree, places included.
pub fn one_script()
    ensures { HasOneTree }
{
    one_tree();
}

/// The text of each script that has one is a script with the same tree, places aside.
pub fn reads_back()
    ensures { ReadsBack }
{}

/// What is read of a script's text is that script, places aside, and has the same text.
pub fn reads_only_back()
    ensures { ReadsOnlyBack }
{
    one_script();
}

/// There is a script whose tree has no text, since only its spare parentheses keep the nesting.
pub fn has_no_text()
    ensures { HasNoText }
{}

/// A tree that was read has a text exactly where no token of that text is nested deeper than 1000.
pub fn prints_where_nested()
    ensures { PrintsWhereNested }
{}

//! Laws of the definitions, for the proofs of the crates above. No function here does anything.

ghost use Rattle.std.specs.Prelude.{IsTrue};
ghost use Rattle.std.specs.List.{list_all};
ghost use Rattle.js_tree.specs.Printable.{is_byte};
ghost use Rattle.js_tree.specs.LawClauses.{CallDoes, WhileDoes, ForeverDoes, MoreTicks, NothingTakenBack, StatementsFollow, CallComes, TurnComes, StatementsStop, CallStops, RunComes};
ghost use Rattle.js_tree.specs.Rows.{FirstRuns};
ghost use Rattle.js_tree.specs.PrintedRows.{PrintedRows};
ghost use Rattle.js_tree.specs.GrammarRows.{GrammarRows};
ghost use Rattle.js_tree.specs.HalvesRows.{HalvesRows};
ghost use Rattle.js_tree.specs.Engine1.{Engine1};
ghost use Rattle.js_tree.specs.Engine2.{Engine2};
ghost use Rattle.js_tree.specs.Engine3.{Engine3};
ghost use Rattle.js_tree.specs.Engine4.{Engine4};

use gj_base::Text;

/// Runs of small scripts are as worked out by hand.
pub fn first_runs()
    ensures rows { FirstRuns }
{}

/// Texts of small trees are as worked out by hand.
pub fn printed_rows()
    ensures rows { PrintedRows }
{}

/// Small scripts have the trees that were worked out by hand.
pub fn grammar_rows()
    ensures rows { GrammarRows }
{}

/// Numbers of 64 bits are as worked out by hand.
pub fn halves_rows()
    ensures rows { HalvesRows }
{}

fn bytes_of_slices(bytes: &[u8])
    ensures value { IsTrue (list_all is_byte bytes.now) }
{}

/// A text holds bytes, as a string in a script does.
pub fn bytes_of_texts(text: &Text)
    ensures value { IsTrue (list_all is_byte text.now) }
{
    bytes_of_slices(text.as_bytes());
}

/// Where ticks are left for it, a function's call does what its body does, and a loop goes on as
/// at its first turn: ECMA-262 5.1, 12.6 and 13.2.1.
pub fn calls_and_loops()
    ensures calls { CallDoes }
    ensures whiles { WhileDoes }
    ensures forevers { ForeverDoes }
{}

/// With more ticks a run is the same, or goes on from where no tick was left; and nothing that was
/// printed, taken or made is taken back.
pub fn ticks_and_prints()
    ensures more { MoreTicks }
    ensures kept { NothingTakenBack }
{}

/// What parts of a script come to, with so many ticks more, is put together.
pub fn parts_follow()
    ensures statements { StatementsFollow }
    ensures calls { CallComes }
    ensures turns { TurnComes }
{}

/// With fewer ticks than it takes a part of a script stops on its way.
pub fn parts_stop()
    ensures statements { StatementsStop }
    ensures calls { CallStops }
{}

/// A run is what its parts come to, and takes as many ticks as they do.
pub fn runs_follow()
    ensures runs { RunComes }
{}

/// Texts and runs of scripts are as engines print and run them, rows 1 to 15.
pub fn engine_rows_1()
    ensures rows { Engine1 }
{}

/// Texts and runs of scripts are as engines print and run them, rows 16 to 30.
pub fn engine_rows_2()
    ensures rows { Engine2 }
{}

/// Texts and runs of scripts are as engines print and run them, rows 31 to 45.
pub fn engine_rows_3()
    ensures rows { Engine3 }
{}

/// Texts and runs of scripts are as engines print and run them, rows 46 to 60.
pub fn engine_rows_4()
    ensures rows { Engine4 }
{}

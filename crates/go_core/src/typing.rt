//! Laws of the typing of states. No function here does anything.

ghost use Rattle.go_core.specs.AssignSteps.{RangeTurnsKeep, StoresKeep};
ghost use Rattle.go_core.specs.CallSteps.{CallStepsKeep};
ghost use Rattle.go_core.specs.CommunicationSteps.{
  CommunicationsKeep,
  ReadyGoes,
  UnreadyStays,
  WaitingKeeps,
};
ghost use Rattle.go_core.specs.ListedSample.{
  MentionedAreListed,
  NodesAreListed,
  PartsAreListed,
  SampleIsListed,
};
ghost use Rattle.go_core.specs.LocalSteps.{LocalStepsKeep};
ghost use Rattle.go_core.specs.SoundSample.{
  AssertionsWithoutMethodAreNot,
  NamedPointersAreNot,
  NumbersAreNoRunes,
  RangesWithoutValueAreNot,
  SampleIsSound,
  TagsAreIgnored,
  TwoRowsAreNot,
  ValuesOfNilAreNot,
  ValuesWithMethodsAreWrapped,
};
ghost use Rattle.go_core.specs.TypingLaws.{
  ExprsOpenTyped,
  OperatorsTyped,
  StartsWellFormed,
  StmtsOpenTyped,
};
ghost use Rattle.go_core.specs.WholeSteps.{
  AbleGoWell,
  GoingGoesOn,
  ReachedWellFormed,
  StepsKeep,
};

/// What remains of a frame's body is typed where its nodes are sound.
pub fn opening()
    ensures exprs { ExprsOpenTyped }
    ensures stmts { StmtsOpenTyped }
{}

/// Operands of an operator's types always have a step, which panics or gives values of its types.
pub fn operators()
    ensures operators { OperatorsTyped }
{}

/// The beginning of a Sound program's run is well formed.
pub fn starts()
    ensures well_formed { StartsWellFormed }
{}

/// A step that a frame takes by itself is there, and leaves a well formed state.
pub fn local_steps()
    ensures keep { LocalStepsKeep }
{}

/// A goroutine that reaches an operation of communication has a step by some move, and one that waits has one where
/// what it waits for is ready, and only there. The state after such a step is well formed, also where a partner
/// moves in the same step.
pub fn communication()
    ensures reached { CommunicationsKeep }
    ensures waiting { WaitingKeeps }
    ensures ready { ReadyGoes }
    ensures unready { UnreadyStays }
{}

/// A step of an assignment, the beginning of a range, and a receiver that is read through a pointer are there, and
/// so is a turn of a range by some move. The state after such a step is well formed.
pub fn assignments()
    ensures stores { StoresKeep }
    ensures range_turns { RangeTurnsKeep }
{}

/// A step by which a frame comes or goes is there, and leaves a well formed state.
pub fn call_steps()
    ensures keep { CallStepsKeep }
{}

/// A move that can be made leaves a well formed state, so each state that a run of a Sound program comes to is one.
/// Each able goroutine has a step by some move of its own, and while the run has not ended some move can be made.
pub fn steps()
    ensures able { AbleGoWell }
    ensures keep { StepsKeep }
    ensures reached { ReachedWellFormed }
    ensures goes_on { GoingGoesOn }
{}

/// There is a Sound program, so what is said of such programs is said of something; there is one that converts
/// between types that differ in tags alone, and one that puts a value of a type with an exported method into an
/// interface value.
pub fn sample()
    ensures sound { SampleIsSound }
    ensures tags { TagsAreIgnored }
    ensures methods { ValuesWithMethodsAreWrapped }
{}

/// Programs that no source gives are not Sound: one with two rows of a method, one that ranges over the array of a
/// pointer without a value, one that asks an interface value for a type without its methods, and ones with conversions
/// that Go lacks.
pub fn refused()
    ensures rows { TwoRowsAreNot }
    ensures ranges { RangesWithoutValueAreNot }
    ensures assertions { AssertionsWithoutMethodAreNot }
    ensures pointers { NamedPointersAreNot }
    ensures numbers { NumbersAreNoRunes }
    ensures nil { ValuesOfNilAreNot }
{}

/// Which tables of types have all that a program mentions: one that lists them, and none without the type of run-time
/// panics, without a type that a node has, or without a part of one of its own.
pub fn listed()
    ensures sample { SampleIsListed }
    ensures mentioned { MentionedAreListed }
    ensures nodes { NodesAreListed }
    ensures parts { PartsAreListed }
{}

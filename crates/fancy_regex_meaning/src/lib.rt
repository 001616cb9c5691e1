//! The semantics of patterns, independent of any engine. A pattern has an ordered list of ways from each position of a
//! haystack: the states in which a backtracking matcher can leave it, the preferred one first. Searches, iteration, sets and
//! replacement are defined from these lists. There is no code here, only definitions, computed examples and proved laws.
#![tactic(auto)]

ghost use Rattle.fancy_regex_meaning.specs.TerminationLaws.{TerminatingHasUnfolding, NonTerminatingHasNoUnfolding, TerminationDepthSuffices, FixpointIsReached, NonTerminatingIsUnbounded};
ghost use Rattle.fancy_regex_meaning.specs.GroupLaws.{GroupsAreCounted, NumbersAreRanks, BodiesOccur, TargetsAreGroups, CallsRunGroups};
ghost use Rattle.fancy_regex_meaning.specs.WayLaws.{AtomicHasOne, LookAroundHasEach, NegativeStays, RowSplits, FirstGoesByParts, WaysMoveForward, WaysHaveCharBoundaries, KeepsStart, LoopsAreUnbounded, RepeatsUnroll, CallsAreUnbounded, MatchesAreSpans, WaysAreFew};
ghost use Rattle.fancy_regex_meaning.specs.ItemLaws.{PatternsAscend, FirstItemIsFound, ItemsNeedNoMore, ItemsAreUnbounded, OneMorePiece, PiecesAreAll, PiecesUpToAreCounted, PiecesUpToAreFirst, ReplacedIsInTurn, ReplacedBySelf, NothingReplaced};
ghost use Rattle.fancy_regex_meaning.specs.Examples.{Orders, TwoNewlines, EmptyIteration, LookAheadKeepsWays, AtomicIsFirst, RangeEnds, NotEmpty, FoldedReference, Iterations, Sets, Pieces, Recursion, Branches, Calls, Deep, Weights, Chosen, Edges, Nodes, SizesOfPatterns, LongestRows, Exploding};
ghost use Rattle.fancy_regex_meaning.specs.SearchLaws.{MatchesAreAdmitted, NoneIsNone, LongestEndsLast, MatchesHaveCharBoundaries, FoundHasCharBoundaries, ItemsHaveCharBoundaries, OneMemberFinds, SetsFindMembers};
ghost use Rattle.fancy_regex_meaning.specs.SizeLaws.{LeastIsLowerBound, GreatestIsUpperBound, ConstSizeIsExact, NonEmptyMoves, UnboundedLeastHasNoWay};
ghost use Rattle.fancy_regex_meaning.specs.Ways.{Setting};
ghost use Rattle.fancy_regex_tree.specs.Tree.{Tree};
ghost use Rattle.std.specs.Prelude.{List};

/// Examples: the matches of given patterns in given haystacks.
pub fn worked_patterns()
    ensures orders { Orders }
    ensures two_newlines { TwoNewlines }
    ensures empty_iteration { EmptyIteration }
    ensures look_ahead_keeps_ways { LookAheadKeepsWays }
    ensures atomic_is_first { AtomicIsFirst }
    ensures range_ends { RangeEnds }
    ensures not_empty { NotEmpty }
    ensures folded_reference { FoldedReference }
    ensures recursion { Recursion }
    ensures branches { Branches }
    ensures calls { Calls }
    ensures deep { Deep }
    ensures edges { Edges }
    ensures longest { LongestRows }
    ensures exploding { Exploding }
{}

/// Examples: iteration, pattern sets, splitting and replacement.
pub fn worked_lists()
    ensures iterations { Iterations }
    ensures sets { Sets }
    ensures pieces { Pieces }
{}

/// Examples: sizes, weights, choices of a search, and program sizes.
pub fn worked_sizes()
    ensures weights { Weights }
    ensures chosen { Chosen }
    ensures nodes { Nodes }
    ensures sizes { SizesOfPatterns }
{}

/// Laws of the ways of every pattern: atomic groups, look-arounds, repeats, calls, and the positions that ways reach.
pub fn laws_of_ways()
    ensures atomic { (s : Setting) (groups : List Tree) → AtomicHasOne s groups }
    ensures look_around { (s : Setting) (groups : List Tree) → LookAroundHasEach s groups }
    ensures negative { (s : Setting) (groups : List Tree) → NegativeStays s groups }
    ensures rows { RowSplits }
    ensures first { FirstGoesByParts }
    ensures onward { (s : Setting) (groups : List Tree) → WaysMoveForward s groups }
    ensures cuts { (s : Setting) (groups : List Tree) → WaysHaveCharBoundaries s groups }
    ensures kept { (s : Setting) (groups : List Tree) → KeepsStart s groups }
    ensures repeats { (s : Setting) → RepeatsUnroll s }
    ensures loops { (s : Setting) → LoopsAreUnbounded s }
    ensures calls { (s : Setting) (groups : List Tree) → CallsAreUnbounded s groups }
    ensures few { WaysAreFew }
{}

/// Laws of the match that a search reports, and of the matches that a pattern set reports.
pub fn laws_of_matches()
    ensures admitted { MatchesAreAdmitted }
    ensures none { NoneIsNone }
    ensures longest { LongestEndsLast }
    ensures spans { MatchesAreSpans }
    ensures cuts { MatchesHaveCharBoundaries }
    ensures found { FoundHasCharBoundaries }
    ensures one_member { OneMemberFinds }
    ensures members { SetsFindMembers }
{}

/// Laws of the matches of an iteration: they ascend, the first is that of a single search, and all are listed.
pub fn laws_of_items()
    ensures ascend { PatternsAscend }
    ensures first { FirstItemIsFound }
    ensures more { ItemsNeedNoMore }
    ensures bound { ItemsAreUnbounded }
    ensures cuts { ItemsHaveCharBoundaries }
{}

/// Laws of splitting and replacement.
pub fn laws_of_pieces()
    ensures one_more { OneMorePiece }
    ensures all { PiecesAreAll }
    ensures counted { PiecesUpToAreCounted }
    ensures first { PiecesUpToAreFirst }
    ensures replaced { ReplacedIsInTurn }
    ensures by_self { ReplacedBySelf }
    ensures nothing { NothingReplaced }
{}

/// Laws of capture groups: numbers are ranks of opening parentheses, and a call runs the body of its group.
pub fn laws_of_groups()
    ensures counted { GroupsAreCounted }
    ensures ranks { NumbersAreRanks }
    ensures bodies { BodiesOccur }
    ensures targets { TargetsAreGroups }
    ensures calls { CallsRunGroups }
{}

/// Laws of sizes, which bound the characters of every match, and of termination: what has a finite expansion of its calls.
pub fn laws_of_sizes()
    ensures least { (s : Setting) (groups : List Tree) → LeastIsLowerBound s groups }
    ensures greatest { (s : Setting) (groups : List Tree) → GreatestIsUpperBound s groups }
    ensures always { (s : Setting) (groups : List Tree) → ConstSizeIsExact s groups }
    ensures moves { (s : Setting) (groups : List Tree) → NonEmptyMoves s groups }
    ensures endless { (s : Setting) (groups : List Tree) → UnboundedLeastHasNoWay s groups }
    ensures ends { (groups : List Tree) → TerminatingHasUnfolding groups }
    ensures others { (groups : List Tree) → NonTerminatingHasNoUnfolding groups }
    ensures deeper { (groups : List Tree) → TerminationDepthSuffices groups }
    ensures still { (groups : List Tree) → FixpointIsReached groups }
    ensures no_least { (groups : List Tree) → NonTerminatingIsUnbounded groups }
{}

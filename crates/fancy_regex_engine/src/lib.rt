//! The matching engine under one name: character classes, the analysis of trees, the step-bounded search of easy patterns,
//! the compiler and the backtracking machine. It re-exports the crates below and adds the law that both engines return the
//! same match.
#![tactic(auto)]

ghost use Rattle.fancy_regex_engine.specs.EngineAgreement.{EnginesAgree};

pub use fancy_regex_analysis::{analyze, can_compile_as_anchored, is_well_formed};
pub use fancy_regex_class::{
    CaseiLiteral, CharClassMatcher, ClassError, Counted, RunInput, Span, Steps, fold, is_word,
};
pub use fancy_regex_compiler::{Prog, compile};
pub use fancy_regex_info::{AnalyzeContext, BytesMode, CompileError, CompileOptions, Info};
pub use fancy_regex_linear::Easy;
pub use fancy_regex_machine::{
    Allowance, Exhausted, ProgramRun, RunMemory, RunOptions, RuntimeError, run, run_default,
    run_in, run_spans, run_spans_in, run_spans_within, run_within,
};
pub use fancy_regex_program::{
    AbsentRepeater, Callee, CaptureGroupRange, Delegate, Insn, Repeat, RepeatEpsilon,
    is_valid_program,
};

/// Wherever both succeed, a run of a pattern's program and an `Easy` search of the same pattern return the same spans of all
/// groups. The run must try every start position (no table of first bytes to seek) and must admit empty matches.
pub fn engines_agree()
    ensures { EnginesAgree }
{}

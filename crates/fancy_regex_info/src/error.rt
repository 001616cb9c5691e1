//! The errors of analysis and compilation.

ghost use Rattle.std.specs.Prelude.{◌≡◌};
ghost use Rattle.fancy_regex_info.specs.declared.error.CompileError.TheVariants as errors;

use std::alloc::{AllocError, AllocFailed};
use thiserror::Error;

/// Why a pattern was not compiled: an error in the pattern, an unsupported feature, a limit, or want of memory.
///
/// ```
/// let refused = Regex::new(alloc, r"(?<=a+)b");
/// assert!(rt;
///     matches!(
///         &refused,
///         Err(Error::CompileError(CompileError::LookBehindNotConst))
///     )
/// );
/// ```
#[derive(Debug, PartialEq, Eq, Drop, Error)]
pub enum CompileError {
    /// `regex` rejects a character class; the payload is the text of the class.
    #[error("inner error: {0}")]
    InnerError(String),
    /// The body of a look-behind has no fixed length, and is no alternation of bodies that have.
    #[error("look behind not const")]
    LookBehindNotConst,
    /// Kept, and never answered.
    #[error("variable look behind requires feature")]
    VariableLookBehindRequiresFeature,
    /// Kept, and never answered.
    #[error("dfa build error: {0}")]
    DfaBuildError(String),
    /// Kept, and never answered.
    #[error("invalid group name")]
    InvalidGroupName,
    /// A template names a group that is not there; the payload is the name.
    #[error("invalid group name backref: {0}")]
    InvalidGroupNameBackref(String),
    /// A back reference or a condition names group 0, or a number that no group has; the payload is the number.
    #[error("invalid backref: {0}")]
    InvalidBackref(usize),
    /// Unnamed groups do not capture, as named ones exist, but a reference other than `\g<0>` goes by number.
    #[error("named backref only")]
    NamedBackrefOnly,
    /// The pattern uses a feature that the compiler does not support; the payload names it.
    #[error("feature not yet supported: {0}")]
    FeatureNotYetSupported(String),
    /// A subroutine call of a group that does not exist; the payload is the name, the number, or the signed relative number.
    #[error("subroutine call target not found: {0}")]
    SubroutineCallTargetNotFound(String),
    /// The group can call itself before any character is matched; the payload is its number.
    #[error("left recursive subroutine call: {0}")]
    LeftRecursiveSubroutineCall(usize),
    /// Every path through the pattern calls the pattern again, so no match ever ends.
    #[error("never ending recursion")]
    NeverEndingRecursion,
    /// Empty matches are excluded, and the pattern has only empty matches.
    #[error("pattern can never match")]
    PatternCanNeverMatch,
    /// The weight of the pattern, or the size of its program, is above the limit.
    #[error("pattern too complex")]
    PatternTooComplex,
    /// The lower bound of a quantifier is above its upper bound.
    #[error("repeat bounds reversed")]
    RepeatBoundsReversed,
    /// The tree has an unresolved node. The parser resolves all, so only trees built by hand have one.
    #[error("unresolved ast node")]
    UnresolvedAstNode,
    /// Kept, and never answered.
    #[error("unexpected general error: {0}")]
    UnexpectedGeneralError(String),
    /// Memory ran out.
    #[error("Out of memory")]
    Memory,
}

impl From<AllocError> for CompileError {
    ghost from_gives = { λ _ e. e ≡ errors.Memory };

    fn from(_e: AllocError) -> CompileError {
        CompileError::Memory
    }
}

impl<T: Drop> From<AllocFailed<T>> for CompileError {
    ghost from_gives = { λ _ e. e ≡ errors.Memory };

    fn from(_e: AllocFailed<T>) -> CompileError {
        CompileError::Memory
    }
}

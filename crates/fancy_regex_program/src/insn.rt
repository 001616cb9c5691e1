//! The instructions of programs.

use crate::delegate::Delegate;
use fancy_regex_class::{CaseiLiteral, CharClassMatcher};
use fancy_regex_tree::Assertion;
use std::mem::size_of;
use std::sync::Arc;

const _: () = prove!(size_of::<Insn>() <= 24);

/// One instruction of a program, of at most 24 bytes: larger operands are boxed or shared. Jump targets are indices of
/// instructions. Slots are numbered from 0; each holds a byte offset, a count, a height of the backtrack stack, the index of an
/// instruction, or nothing. The slots 2k and 2k + 1 are the start and the end of group k.
#[derive(Clone, Debug, Drop)]
pub enum Insn {
    /// The whole pattern has matched.
    End,
    /// Matches one character.
    Any,
    /// Matches one character other than `\n`.
    AnyNoNL,
    /// Matches one character other than `\n` and `\r`.
    AnyNoCRLF,
    /// Continues if the assertion holds here.
    Assertion(Assertion),
    /// Matches this literal text. Instructions of equal literals share it.
    Lit(Arc<String>),
    /// Matches one character that equals this one under case folding.
    LitCasei(CaseiLiteral),
    /// Matches one character of the class. Instructions of one class share its matcher.
    CharClass(Arc<CharClassMatcher>),
    /// Matches `\r\n`, or one newline character.
    GeneralNewline {
        /// Whether the newlines of Unicode are included.
        unicode: bool,
    },
    /// Continues at the first instruction, and pushes a branch to the second.
    Split(usize, usize),
    /// Continues, and pushes a branch back here for the next offset at which a match may start.
    SplitUnanchored,
    /// Continues at this instruction.
    Jmp(usize),
    /// Writes the position to the slot.
    Save(usize),
    /// Writes the position to slot 0: the start of the match.
    Save0,
    /// Copies the start of a group, saved while its body was matched, to the group's first slot.
    SaveCaptureGroupStart {
        /// The slot in which the start was saved.
        saved: usize,
        /// The group's first slot.
        slot: usize,
    },
    /// Sets the position to the one in the slot.
    Restore(usize),
    /// Writes the count 0 to the slot.
    BeginRepeat(usize),
    /// The head of a bounded greedy repeat.
    RepeatGr(Box<Repeat>),
    /// The head of a bounded lazy repeat.
    RepeatNg(Box<Repeat>),
    /// The head of an unbounded greedy repeat. An iteration that matched the empty string is the last.
    RepeatEpsilonGr(Box<RepeatEpsilon>),
    /// The head of an unbounded lazy repeat. An iteration that matched the empty string is the last.
    RepeatEpsilonNg(Box<RepeatEpsilon>),
    /// Drops the branches above the height in the slot, and fails.
    FailNegativeLookAround(usize),
    /// Moves so many characters back; fails if there are fewer.
    GoBack(usize),
    /// Matches the text of a group again; fails if the group is unset.
    Backref {
        /// The group's first slot.
        slot: usize,
        /// Whether case is ignored.
        casei: bool,
    },
    /// Writes the height of the backtrack stack to the slot.
    BeginAtomic(usize),
    /// Drops the branches above the height in the slot.
    EndAtomic(usize),
    /// Continues if this is the offset at which `\G` holds.
    ContinueFromPreviousMatchEnd,
    /// Continues if the group with this first slot is set.
    BackrefExistsCondition(usize),
    /// Fails.
    Fail,
    /// Continues after what a part of the pattern matches first.
    Delegate(Arc<Delegate>),
    /// The end of the whole pattern. Where only the first match of a search counts, continues at `end` after what the part matches first
    /// in range, and fails where it has no such match. In other searches it continues with the next instruction.
    DelegateTail {
        /// The rest of the pattern.
        part: Arc<Delegate>,
        /// The instruction after the instructions of the part.
        end: usize,
    },
    /// A step of an absent repeater.
    AbsentRepeater(Box<AbsentRepeater>),
    /// Enters the body of a called group. Fails where as many calls of the group are open as may be.
    Call(Arc<Callee>),
    /// Comes back after the call of the group that was entered last.
    Return(Arc<Callee>),
}

/// The body of a called group, and the slots that its calls use. The group's own slots are those of its innermost open call, and
/// those of each call around it wait in a frame: a call writes the next instruction to the frame of its depth and, where the group
/// is open already, copies the group's own slots to the rest of the frame; the return takes both back.
#[derive(Clone, Copy, Debug, PartialEq, Eq)]
pub struct Callee {
    /// The first instruction of the body.
    pub start: usize,
    /// The slot that counts the open calls. Unset stands for none.
    pub count: usize,
    /// How many calls may be open.
    pub most: usize,
    /// The first slot of the frames. There is a frame for each call that may be open, of `own + 1` slots.
    pub frames: usize,
    /// The first of the group's own slots.
    pub first: usize,
    /// How many slots of its own the group has.
    pub own: usize,
}

/// The operands of the head of a bounded repeat.
#[derive(Clone, Copy, Debug, PartialEq, Eq)]
pub struct Repeat {
    /// The least count of iterations.
    pub lo: usize,
    /// The greatest count of iterations.
    pub hi: usize,
    /// The instruction after the repeat.
    pub next: usize,
    /// The slot that counts the iterations.
    pub repeat: usize,
}

/// The operands of the head of an unbounded repeat.
#[derive(Clone, Copy, Debug, PartialEq, Eq)]
pub struct RepeatEpsilon {
    /// The least count of iterations, below `usize::MAX`.
    pub lo: usize,
    /// The instruction after the repeat.
    pub next: usize,
    /// The slot that counts the iterations, up to one past the least count.
    pub repeat: usize,
    /// The slot of the byte offset at which the last iteration past the least count began.
    pub check: usize,
}

/// A step of an absent repeater, `(?~body)`. The body is run at each offset from the start on, up to the lowest offset at
/// which a match of it ends; the run holds that limit, and backtracking does not undo it. Then the repeater ends at the last
/// offset below the limit, and on backtracking one character earlier, down to its start.
#[derive(Clone, Copy, Debug, PartialEq, Eq)]
pub enum AbsentRepeater {
    /// Writes the position to the slot `start`, and the limit of the run to the slot `limit`, and clears the limit of the run.
    /// Continues after the next instruction, and pushes a branch to it.
    Begin { start: usize, limit: usize },
    /// If the next offset is below the limit, runs the body there, and pushes a branch back here; else exchanges the limit of
    /// the run and the slot `limit`, and continues at `end`.
    Scan { limit: usize, end: usize },
    /// The body has matched: lowers the limit of the run to the position, if it is above, and fails.
    Limit { limit: usize },
    /// Ends the repeater here if this is before the limit, and on backtracking one character earlier, down to the start.
    End { start: usize, limit: usize },
}

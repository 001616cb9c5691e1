//! A program under construction.

ghost use Rattle.std.specs.Prelude.{◌≡◌, ◌≤◌, chars, length, string_bytes};

use crate::literal_table::LiteralTable;
use fancy_regex_program::Insn;
use std::alloc::Global;

/// The instructions so far, their literals, and the literal text after them that is not yet an instruction, so that adjacent
/// literals merge. There are never more instructions than the cap, and a literal has at most 1,000 characters.
#[derive(Drop)]
pub(crate) struct ProgramBuilder {
    pub(crate) alloc: Global,
    pub(crate) insns: Vec<Insn>,
    pub(crate) literals: LiteralTable,
    pub(crate) pending_literal: String,
    pub(crate) pending_characters: usize,
    pub(crate) cap: usize,
    ghost fits: { length insns.items ≤ cap },
    ghost counted: { pending_characters ≡ length (chars (string_bytes pending_literal)) },
}

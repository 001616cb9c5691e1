//! Appending instructions to a program. The errors are `PatternTooComplex` where the cap is reached, and `Memory`.

ghost use Rattle.std.specs.Prelude.{◌≡◌, ◌≤◌, ◌<◌, length, [], OnOk, IfErr};
ghost use Rattle.fancy_regex_program.specs.Caps.{cap_of};
ghost use Rattle.fancy_regex_compiler.specs.Extents.{extent, Appends, IsFull};
ghost use Rattle.fancy_regex_program.specs.Ops.{op_of, ops_of};
ghost use Rattle.fancy_regex_compiler.specs.Refusals.{IsMemoryOrTooComplex};
ghost use Rattle.fancy_regex_compiler.specs.Writing.{draft_of, with_op, with_char, with_whole_literal, closed_draft, added, patched, ended, ends_at};

use crate::literal_table::LiteralTable;
use crate::program_builder::ProgramBuilder;
use fancy_regex_info::CompileError;
use fancy_regex_program::Insn;
use std::alloc::Global;
use std::mem;

/// The most characters of a literal.
const MOST_CHARACTERS: usize = 1_000;

/// The most characters that a call of a group writes that writes nothing else.
const MOST_CALLED_CHARACTERS: usize = 100_000_000;

impl ProgramBuilder {
    /// The empty program, with a cap on its length if there is one.
    pub fn new(alloc: Global, max_prog_size: Option<usize>) -> ProgramBuilder
        ensures cap { result.cap ≡ cap_of max_prog_size }
        ensures draft { draft_of result ≡ record { ops = []; text = [] } }
    {
        ProgramBuilder {
            alloc,
            insns: Vec::new(alloc),
            literals: LiteralTable::new(alloc),
            pending_literal: String::new(alloc),
            pending_characters: 0,
            cap: max_prog_size.unwrap_or(usize::MAX),
        }
    }

    /// The index of the next instruction.
    pub fn len(&self) -> usize
        ensures { result ≡ length (draft_of self.now).ops }
    {
        self.insns.len()
    }

    /// Appends an instruction before the pending literal text.
    pub fn push_insn(&mut self, insn: Insn) -> Result<(), CompileError>
        ensures { Appends (with_op (op_of insn) (draft_of self.old)) 1 self.old self.new result }
    {
        if self.insns.len() >= self.cap {
            return Err(CompileError::PatternTooComplex);
        }
        self.insns.push(insn)?;
        Ok(())
    }

    /// Appends a character to the pending literal text, which is made an instruction before where it has as many as a literal may have.
    pub fn push_literal_char(&mut self, c: char) -> Result<(), CompileError>
        ensures draft { OnOk result (draft_of self.new ≡ with_char c (draft_of self.old)) }
        ensures cap { self.new.cap ≡ self.old.cap }
        ensures full { IfErr result (IsFull self.old 0) }
        ensures refused { IfErr result IsMemoryOrTooComplex }
    {
        self.flush_if_whole()?;
        self.pending_literal.push(c)?;
        self.pending_characters += 1;
        Ok(())
    }

    /// Makes the pending literal text an instruction, if it has as many characters as a literal may have.
    fn flush_if_whole(&mut self) -> Result<(), CompileError>
        ensures appends { Appends (with_whole_literal (draft_of self.old)) 0 self.old self.new result }
        ensures few { OnOk result (self.new.pending_characters < 1000) }
    {
        if self.pending_characters < MOST_CHARACTERS {
            return Ok(());
        }
        self.flush()?;
        Ok(())
    }

    /// Whether there is room for so many characters of literals. The error is `PatternTooComplex` where the cap is below the instructions
    /// that they need, and `Memory` where they are more than a call may write.
    pub fn check_room(&self, characters: usize) -> Result<(), CompileError>
        ensures full { IfErr result (IsFull self.now characters) }
        ensures refused { IfErr result IsMemoryOrTooComplex }
    {
        if characters / MOST_CHARACTERS > self.cap - self.insns.len() {
            return Err(CompileError::PatternTooComplex);
        }
        if characters > MOST_CALLED_CHARACTERS {
            return Err(CompileError::Memory);
        }
        Ok(())
    }

    /// Makes the pending literal text an instruction, if there is some.
    pub fn flush(&mut self) -> Result<(), CompileError>
        ensures { Appends (closed_draft (draft_of self.old)) 0 self.old self.new result }
    {
        if self.pending_literal.is_empty() {
            return Ok(());
        }
        let text = mem::replace(&mut self.pending_literal, String::new(self.alloc));
        self.pending_characters = 0;
        let literal = self.literals.share(self.alloc, text)?;
        self.push_insn(Insn::Lit(literal))?;
        Ok(())
    }

    /// Appends an instruction after the pending literal text.
    pub fn flush_and_push(&mut self, insn: Insn) -> Result<(), CompileError>
        ensures { Appends (added (op_of insn) (draft_of self.old)) 1 self.old self.new result }
    {
        self.flush()?;
        self.push_insn(insn)?;
        Ok(())
    }

    /// Replaces the instruction at this index, if there is one.
    pub fn patch(&mut self, at: usize, insn: Insn)
        ensures draft { draft_of self.new ≡ patched at (op_of insn) (draft_of self.old) }
        ensures cap { self.new.cap ≡ self.old.cap }
        ensures long { extent (draft_of self.new) ≡ extent (draft_of self.old) }
    {
        if at < self.insns.len() {
            self.insns[at] = insn;
        }
    }

    /// Lets the tail whose instruction has this index end at that one, if it is one.
    pub fn end_tail(&mut self, at: usize, end: usize)
        ensures draft { draft_of self.new ≡ ended at end (draft_of self.old) }
        ensures cap { self.new.cap ≡ self.old.cap }
        ensures long { extent (draft_of self.new) ≡ extent (draft_of self.old) }
    {
        if at < self.insns.len() {
            let insn = mem::replace(&mut self.insns[at], Insn::Fail);
            self.insns[at] = ended_at(insn, end);
        }
    }

    /// The instructions, without the pending literal text.
    pub fn into_insns(self) -> Vec<Insn>
        ensures cap { length result.items ≤ self.cap }
        ensures ops { ops_of result.items ≡ (draft_of self).ops }
    {
        self.insns
    }
}

/// The instruction, which ends at that one if it begins a tail.
fn ended_at(insn: Insn, end: usize) -> Insn
    ensures { op_of result ≡ ends_at end (op_of insn) }
{
    match insn {
        Insn::DelegateTail { part, .. } => Insn::DelegateTail { part, end },
        other => other,
    }
}

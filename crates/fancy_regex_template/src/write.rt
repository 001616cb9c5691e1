//! The expansion of a template into a writer, and into a vector of bytes.

ghost use Rattle.std.specs.Prelude.{◌≡◌, ◌++◌, true, chars, encode_utf8_all, OnOk, OnErr};
ghost use Rattle.std.specs.Io.KnownBytes.{Appends};
ghost use Rattle.fancy_regex_template.specs.Expansion.{expansion};
ghost use Rattle.fancy_regex_template.specs.Writing.{AppendsBeginning};

use crate::expand::part_text;
use crate::groups::GroupTexts;
use crate::parts::template_parts;
use crate::sink::Sink;
use crate::syntax::TemplateSyntax;
use std::alloc::AllocError;
use std::io::{self, ErrorKind, Write};

/// Writes a whole text. An error of the writer is passed on, and a write that takes no byte is `WriteZero`; it fails for no
/// other reason. A beginning of the text is written then, but not all of it.
fn write_text<W: Write>(sink: &mut Sink<'_, W>, text: &str) -> io::Result<()>
    ensures same_writer { sink.new.writer.ghost_name ≡ sink.old.writer.ghost_name }
    ensures ok { OnOk result (Appends (W.contents sink.old.writer.now) (W.contents sink.new.writer.now) text.now) }
    ensures err { OnErr result (AppendsBeginning (W.contents sink.old.writer.now) (W.contents sink.new.writer.now) text.now) }
    ensures failed { OnErr result (sink.new.has_failed ≡ true) }
    ensures unfailed { OnOk result (sink.new.has_failed ≡ sink.old.has_failed) }
{
    let bytes = text.as_bytes();
    let mut done = 0;
    while done < bytes.len() {
        match sink.write(&bytes[done..]) {
            Ok(0) => return Err(ErrorKind::WriteZero.into()),
            Ok(n) => done += n,
            Err(error) => return Err(error),
        }
    }
    Ok(())
}

/// Writes what a template expands to, with these texts of groups. Allocates nothing. Fails only where a write failed or took no
/// byte although some were left; a beginning of the expansion is written then, but not all of it.
pub fn write_expansion<W: Write, G: GroupTexts>(
    sink: &mut Sink<'_, W>,
    syntax: TemplateSyntax,
    template: &str,
    groups: &G,
) -> io::Result<()>
    ensures same_writer { sink.new.writer.ghost_name ≡ sink.old.writer.ghost_name }
    ensures ok { OnOk result (Appends (W.contents sink.old.writer.now) (W.contents sink.new.writer.now)
        (encode_utf8_all (expansion syntax (G.texts groups.now) (chars template.now)))) }
    ensures err { OnErr result (AppendsBeginning (W.contents sink.old.writer.now) (W.contents sink.new.writer.now)
        (encode_utf8_all (expansion syntax (G.texts groups.now) (chars template.now)))) }
    ensures failed { OnErr result (sink.new.has_failed ≡ true) }
    ensures unfailed { OnOk result (sink.new.has_failed ≡ sink.old.has_failed) }
{
    for part in template_parts(syntax, template) {
        write_text(sink, part_text(syntax, groups, part))?;
    }
    Ok(())
}

/// Appends what a template expands to, with these texts of groups. If an allocation is refused, `out` is unchanged.
pub fn append_expansion_bytes<G: GroupTexts>(
    syntax: TemplateSyntax,
    template: &str,
    groups: &G,
    out: &mut Vec<u8>,
) -> Result<(), AllocError>
    ensures added { OnOk result
        (out.new.items ≡ out.old.items ++ encode_utf8_all (expansion syntax (G.texts groups.now) (chars template.now))) }
    ensures refused { OnErr result (out.new.items ≡ out.old.items) }
{
    let before = out.as_slice().len();
    for part in template_parts(syntax, template) {
        let text = part_text(syntax, groups, part);
        if let Err(refusal) = out.extend_from_slice(text.as_bytes()) {
            out.truncate(before);
            return Err(refusal);
        }
    }
    Ok(())
}

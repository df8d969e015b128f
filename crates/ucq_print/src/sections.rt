//! The header of a query's section.
ghost use Rattle.std.specs.Prelude.{◌≡◌, ◌++◌, IfOk, OnOk, option_map};
ghost use Rattle.ucq_print.specs.Texts.{label_text, section_line};

use itoa::Buffer;
use std::alloc::Global;
use ucq_terms::NoMemory;

/// Adds a space and the label, if there is one.
fn push_label(line: &mut Vec<u8>, label: Option<&[u8]>) -> Result<(), NoMemory>
    ensures { OnOk
        result
        (line.new.items ≡ line.old.items ++ label_text (option_map (λ l. l.now) label.entry)) }
{
    if let Some(label) = label {
        line.push(b' ')?;
        line.extend_from_slice(label)?;
    }
    Ok(())
}

/// The line before a query's section: the query's number, from 0, and its label where it has one. The only error is want of
/// memory.
pub fn section_line(alloc: Global, number: u32, label: Option<&[u8]>) -> Result<Vec<u8>, NoMemory>
    ensures { IfOk result (λ line.
        line.items ≡ section_line number (option_map (λ l. l.now) label.entry)) }
{
    let mut line = Vec::from_slice(alloc, b"% query ")?;
    line.extend_from_slice(Buffer::new().format(number).as_bytes())?;
    push_label(&mut line, label)?;
    line.push(b'\n')?;
    Ok(line)
}

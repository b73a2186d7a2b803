ghost use Rattle.std.specs.Prelude.{◌≡◌, ◌≢◌, ◌++◌, IfErr, IfOk, OnErr, codes, decimal, option_map, string_bytes};
ghost use Rattle.bx_entry.specs.Inputs.{ReadInput};
ghost use Rattle.bx_message.specs.Statuses.{code_of};
ghost use Rattle.bx_script.specs.Replay.{line_text, response_text, result_text};
ghost use Rattle.bx_script.specs.Output.{HasFailed, IsWriteFault, written};
ghost use Rattle.bx_script.specs.Printing.{Writes, is_tick, numbered};

use crate::error::ScriptFault;
use crate::output::Output;
use bx_entry::Refusal;
use bx_message::{Item, Sequence, Status, body_text};
use bx_transport::callback_of;
use itoa::Buffer;
use std::alloc::{AllocError, Global};
use std::io::Write;

/// Writes the result of line `number`, which is malformed: `number`, a space and `bad`.
///
/// # Errors
///
/// `Memory` or `Write`. A prefix of the line may have been written.
pub fn write_bad<W: Write>(writer: &mut Output<W>, number: u64) -> Result<(), ScriptFault>
    ensures text { Writes (written W.contents writer.old) (written W.contents writer.new) result
        (line_text number (codes "bad")) }
    ensures fault { IfErr result (λ e. e ≢ ScriptFault.Read) }
    ensures failed { OnErr result (HasFailed writer.new) }
{
    write_line(writer, number, b"bad", b"")
}

/// Writes the result of line `number`, a request held at the end: `number`, a space and `held`.
///
/// # Errors
///
/// As [`write_bad`].
pub fn write_held<W: Write>(writer: &mut Output<W>, number: u64) -> Result<(), ScriptFault>
    ensures text { Writes (written W.contents writer.old) (written W.contents writer.new) result
        (line_text number (codes "held")) }
    ensures fault { IfErr result (λ e. e ≢ ScriptFault.Read) }
    ensures failed { OnErr result (HasFailed writer.new) }
{
    write_line(writer, number, b"held", b"")
}

/// Writes the result of line `number`, which is rejected: `number`, a space and the code of
/// `status`.
///
/// # Errors
///
/// As [`write_bad`].
pub fn write_status<W: Write>(
    writer: &mut Output<W>,
    number: u64,
    status: Status,
) -> Result<(), ScriptFault>
    ensures text { Writes (written W.contents writer.old) (written W.contents writer.new) result
        (line_text number (decimal (code_of status))) }
    ensures fault { IfErr result (λ e. e ≢ ScriptFault.Read) }
    ensures failed { OnErr result (HasFailed writer.new) }
{
    let mut buffer = Buffer::new();
    write_line(writer, number, b"", buffer.format(status.code()).as_bytes())
}

/// Writes the result of the input in line `number`.
///
/// Writes `number`, a space and, for a rejected input, its status, or otherwise 200 and the
/// response. The response is an array, or a call of `callback` with the array. Writes nothing for a
/// tick that is not rejected.
///
/// # Errors
///
/// As [`write_bad`].
pub fn write_result<W: Write>(
    alloc: Global,
    writer: &mut Output<W>,
    number: u64,
    callback: &Option<String>,
    tick: bool,
    answer: &Result<Sequence<Item>, Refusal>,
) -> Result<(), ScriptFault>
    ensures text { (read : ReadInput) → is_tick read ≡ tick
        → Writes (written W.contents writer.old) (written W.contents writer.new) result
        (result_text (numbered number (option_map string_bytes callback.now) read) read answer.now) }
    ensures fault { IfErr result (IsWriteFault writer.new) }
{
    match answer {
        Err(refusal) => write_status(writer, number, refusal.status()),
        Ok(_) if tick => Ok(()),
        Ok(items) => write_response(alloc, writer, number, callback, items.as_slice()),
    }
}

fn write_response<W: Write>(
    alloc: Global,
    writer: &mut Output<W>,
    number: u64,
    callback: &Option<String>,
    items: &[Item],
) -> Result<(), ScriptFault>
    ensures text { Writes (written W.contents writer.old) (written W.contents writer.new) result
        (line_text number (codes "200 " ++ response_text (option_map string_bytes callback.now) items.now)) }
    ensures fault { IfErr result (IsWriteFault writer.new) }
{
    let body = body_of(alloc, callback, items)?;
    write_line(writer, number, b"200 ", body.as_slice())
}

fn body_of(alloc: Global, callback: &Option<String>, items: &[Item]) -> Result<Vec<u8>, AllocError>
    ensures { IfOk result (λ body. body.items
        ≡ response_text (option_map string_bytes callback.now) items.now) }
{
    match callback {
        Some(name) => callback_of(alloc, name.as_str(), items),
        None => body_text(alloc, items),
    }
}

fn write_line<W: Write>(
    writer: &mut Output<W>,
    number: u64,
    lead: &[u8],
    text: &[u8],
) -> Result<(), ScriptFault>
    ensures text { Writes (written W.contents writer.old) (written W.contents writer.new) result
        (line_text number (lead.now ++ text.now)) }
    ensures fault { IfErr result (λ e. e ≢ ScriptFault.Read) }
    ensures failed { OnErr result (HasFailed writer.new) }
{
    let mut buffer = Buffer::new();
    put(writer, buffer.format(number).as_bytes())?;
    put(writer, b" ")?;
    put(writer, lead)?;
    put(writer, text)?;
    put(writer, b"\n")
}

fn put<W: Write>(writer: &mut Output<W>, text: &[u8]) -> Result<(), ScriptFault>
    ensures text { Writes (written W.contents writer.old) (written W.contents writer.new) result text.now }
    ensures fault { IfErr result (λ e. e ≢ ScriptFault.Read) }
    ensures failed { OnErr result (HasFailed writer.new) }
{
    let mut rest = text;
    while !rest.is_empty() {
        let count = writer.write_some(rest)?;
        rest = &rest[count..];
    }
    Ok(())
}

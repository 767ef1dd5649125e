//! Answers to a script, line after line.
ghost use Rattle.std.specs.Prelude.{◌≡◌, string_bytes, IfSome, IfErr, OnOk};
ghost use Rattle.std.specs.Io.KnownBytes.{Keeps};
ghost use Rattle.std.specs.Result.{IsOkAnd};
ghost use Rattle.desk.specs.declared.lines.Cause.TheVariants.{Line, Stream};
ghost use Rattle.desk.specs.Lines.{WritesAnswer, IsAtFault, AnswersAll, GivesUpAt, ForFault};

use crate::desk::Desk;
use anyhow::anyhow;
use std::alloc::Global;
use std::io::{BufRead, BufReader, BufWriter, Write};
use std::{fmt, io};
use texts::fault::Fault;

/// Why a script is not carried out to its end.
#[derive(Drop)]
pub enum Cause {
    /// A line was not carried out.
    Line(Fault),
    /// The script could not be read, or an answer not be written.
    Stream(io::Error),
}

impl From<Fault> for Cause {
    ghost from_gives = { λ fault r. r ≡ Line fault };

    fn from(fault: Fault) -> Cause {
        Cause::Line(fault)
    }
}

impl From<io::Error> for Cause {
    ghost from_gives = { λ e r. r ≡ Stream e };

    fn from(e: io::Error) -> Cause {
        Cause::Stream(e)
    }
}

impl fmt::Display for Cause {
    fn fmt<W: fmt::Write>(&self, f: &mut fmt::Formatter<W>) -> fmt::Result {
        match self {
            Cause::Line(fault) => write!(f, "{fault}"),
            Cause::Stream(e) => write!(f, "{e}"),
        }
    }
}

/// The line at which a script is given up, and why.
#[derive(Drop)]
pub struct Halt {
    pub line: u64,
    pub cause: Cause,
}

impl fmt::Display for Halt {
    fn fmt<W: fmt::Write>(&self, f: &mut fmt::Formatter<W>) -> fmt::Result {
        write!(f, "line {}: {}", self.line, self.cause)
    }
}

// Answers one line, as it was read.
fn answer_line<W: Write>(
    heap: Global,
    desk: &mut Desk,
    line: io::Result<String>,
    writer: &mut W,
) -> Result<(), Cause>
    ensures answers { OnOk result (IsOkAnd line (λ text. WritesAnswer (string_bytes text) desk.old desk.new (W.contents writer.old) (W.contents writer.new))) }
    ensures fails { IfErr result (λ cause. ForFault cause (λ fault. IsOkAnd line (λ text. IsAtFault fault (string_bytes text) desk.old × Keeps (W.contents writer.old) (W.contents writer.new)))) }
{
    let mut out = String::new(heap);
    desk.answer(heap, line?.as_str(), &mut out)?;
    writer.write_all(out.as_bytes())?;
    Ok(())
}

/// Answers the lines of a script one after another, up to the first that cannot be carried out.
/// What is promised speaks of bytes that are known: those that the reader gives, and those that the writer holds.
pub fn answer_all<R: BufRead + Drop, W: Write>(
    heap: Global,
    script: R,
    writer: &mut W,
) -> Result<(), Halt>
    ensures answers { OnOk result (IfSome (R.remaining script) (λ bytes. AnswersAll bytes (W.contents writer.old) (W.contents writer.new))) }
    ensures gives_up { IfErr result (λ halt. IfSome (R.remaining script) (λ bytes. ForFault halt.cause (λ fault. GivesUpAt halt.line fault bytes (W.contents writer.old) (W.contents writer.new)))) }
{
    let mut desk = Desk::new();
    let mut line = 0u64;
    for text in script.lines(heap) {
        line = line.saturating_add(1);
        if let Err(cause) = answer_line(heap, &mut desk, text, writer) {
            return Err(Halt { line, cause });
        }
    }
    Ok(())
}

/// Answers the script on standard input on standard output, and says on standard error where it is given up.
pub fn answer_input(rt: &HostRuntime) -> anyhow::Result<()> {
    let heap = rt.alloc();
    let script = BufReader::new(heap, rt.stdin())?;
    let mut writer = BufWriter::new(heap, rt.stdout())?;
    let answered = answer_all(heap, script, &mut writer);
    writer.flush()?;
    if let Err(halt) = answered {
        eprintln!(rt; "{halt}")?;
        return Err(anyhow!("the script was not carried out to its end"));
    }
    Ok(())
}

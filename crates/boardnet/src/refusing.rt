//! Refusals: the line of each, and its status.
ghost use Rattle.boardnet.specs.Answers.{RefusesFor, fault_status};
ghost use Rattle.boardnet.specs.Common.{arc_line};
ghost use Rattle.boardnet.specs.Command.{asked};
ghost use Rattle.reports.specs.Lines.{Says};
ghost use Rattle.boardnet.specs.Outcome.{fault_line, form_of, reason_line, refusal_line};
ghost use Rattle.lengths.specs.Text.{IsText};
ghost use Rattle.std.specs.Prelude.{IfErr, IfOk, ◌≡◌, ◌≤◌};

use crate::answer::Unanswered;
use crate::commands::Command;
use board_io::Sink;
use board_package::{BuildFault, Refusal};
use file_reading::RefusalKind;
use lengths::text::Text;
use real_copper::RealKind;
use reports::lines::{self, Kind};
use std::alloc::Global;

/// Puts the line that says why a command has no answer, and answers its status.
pub fn refuse<N: Sink>(command: Command, why: &Unanswered, notes: &mut N) -> u8
    ensures line { RefusesFor (asked command.entry) why.now result (Says N.got N.faults notes.old notes.new) }
    ensures later { N.faults notes.old ≤ N.faults notes.new }
{
    put_reason(command.subject(), command.report(), why, notes);
    match why {
        Unanswered::Stopped(fault) => status_of(fault),
        _ => 3,
    }
}

// The status of a fault of a package.
fn status_of(fault: &BuildFault) -> u8
    ensures { result ≡ fault_status fault.now }
{
    match fault {
        BuildFault::CannotRead(_) => 4,
        BuildFault::NoMemory => 6,
        _ => 3,
    }
}

// Puts the line of a reason, by the names of the command's subject and of its report.
fn put_reason<N: Sink>(subject: &str, report: &str, why: &Unanswered, notes: &mut N)
    ensures { Says N.got N.faults notes.old notes.new (reason_line subject.now report.now why.now) }
{
    match why {
        Unanswered::Stopped(fault) => put_fault(subject.as_bytes(), fault, notes),
        Unanswered::NotAReport => lines::about_file(notes, report.as_bytes(), b"not a report"),
        Unanswered::SizeTooLarge => lines::plain(notes, b"trial size too large"),
        Unanswered::GrownTooLarge(bounds) => lines::frame(notes, *bounds),
        Unanswered::Mislabelled { file, command, at } => {
            lines::mislabelled(notes, file.as_bytes(), *command, *at)
        }
        Unanswered::Unflat { kind, command, at } => {
            let kind = Kind {
                form: "flatten",
                number: kind.number(),
                name: kind.name(),
            };
            lines::refused_at_byte(notes, subject.as_bytes(), kind, b"command", *command, *at)
        }
        Unanswered::Bent {
            file,
            kind,
            command,
            at,
        } => put_bent(file.as_bytes(), *kind, *command, *at, notes),
        Unanswered::NotJson(file) => lines::about_file(notes, file.as_bytes(), b"not JSON"),
        Unanswered::NotAManifest(file) => {
            lines::about_file(notes, file.as_bytes(), b"not a manifest")
        }
        Unanswered::BoundTooLarge { manifest, bounds } => {
            lines::frame_of(notes, manifest.as_bytes(), *bounds)
        }
        Unanswered::Unbound(why) => why.put(subject, report, notes),
    }
}

// Puts the line of a file that is refused as real copper.
fn put_bent<N: Sink>(file: &[u8], kind: RealKind, command: u32, at: usize, notes: &mut N)
    ensures { Says N.got N.faults notes.old notes.new (arc_line file.now kind command at) }
{
    let kind = Kind {
        form: "Gerber",
        number: kind.number(),
        name: kind.name(),
    };
    lines::refused_at_byte(notes, file, kind, b"command", command, at)
}

// Puts the line of a fault of a package.
fn put_fault<N: Sink>(manifest: &[u8], fault: &BuildFault, notes: &mut N)
    ensures { Says N.got N.faults notes.old notes.new (fault_line manifest.now fault.now) }
{
    match *fault {
        BuildFault::NotJson => lines::about_file(notes, manifest, b"not JSON"),
        BuildFault::BadManifest => lines::about_file(notes, manifest, b"not a manifest"),
        BuildFault::Longer(ref file) => {
            lines::about_file(notes, file.as_bytes(), b"longer than 67108864 bytes")
        }
        BuildFault::CannotRead(ref file) => {
            lines::about_file(notes, file.as_bytes(), b"cannot be read")
        }
        BuildFault::Layer {
            ref file,
            kind,
            command,
            at,
        } => put_refusal(file.as_bytes(), Refusal::Layer { kind, command, at }, notes),
        BuildFault::Drill {
            ref file,
            kind,
            line,
            at,
        } => put_refusal(file.as_bytes(), Refusal::Drill { kind, line, at }, notes),
        BuildFault::Netlist {
            ref file,
            kind,
            line,
        } => put_refusal(file.as_bytes(), Refusal::Netlist { kind, line }, notes),
        BuildFault::FrameTooLarge(bounds) => lines::frame(notes, bounds),
        BuildFault::NoMemory => lines::plain(notes, b"out of memory"),
    }
}

// Puts the line of a file that is refused.
fn put_refusal<N: Sink>(file: &[u8], why: Refusal, notes: &mut N)
    ensures { Says N.got N.faults notes.old notes.new (refusal_line file.now why) }
{
    let kind = Kind {
        form: form(why),
        number: why.number(),
        name: why.name(),
    };
    match why {
        Refusal::Layer { command, at, .. } => {
            lines::refused_at_byte(notes, file, kind, b"command", command, at)
        }
        Refusal::Drill { line, at, .. } => {
            lines::refused_at_byte(notes, file, kind, b"line", line, at)
        }
        Refusal::Netlist { line, .. } => lines::refused_at(notes, file, kind, b"line", line),
    }
}

// The form of a file that is refused.
fn form(why: Refusal) -> &'static str
    ensures { result.now ≡ form_of why }
{
    match why {
        Refusal::Layer { .. } => "Gerber",
        Refusal::Drill { .. } => "drill",
        Refusal::Netlist { .. } => "netlist",
    }
}

/// The name as a text. The one fault is want of memory.
pub fn name_of(alloc: Global, manifest: &str) -> Result<Text, BuildFault>
    requires { IsText manifest.now }
    ensures ok { IfOk result (λ name. name ≡ manifest.now) }
    ensures fault { IfErr result (λ fault. fault ≡ BuildFault.NoMemory) }
{
    match Text::new(alloc, manifest.as_bytes()) {
        Ok(name) => Ok(name),
        Err(_) => Err(BuildFault::NoMemory),
    }
}

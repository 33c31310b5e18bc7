//! The output and the messages for one module.

ghost use Rattle.std.specs.Prelude.{◌≡◌, ◌∷◌, [], None, OnErr, OnOk, true, false, flat_map, is_err, map, string_bytes};
ghost use Rattle.command_line.specs.Rows.{Took, writer};
ghost use Rattle.tree_lint.specs.CommentFaults.{fault_view};
ghost use Rattle.lint_forms.specs.Forms.{module_text};
ghost use Rattle.tree_lint.specs.Parted.{after_empty_line};
ghost use Rattle.module_find.specs.Refusals.{refusal_line, refusal_view};
ghost use Rattle.module_find.specs.KeptRefusals.{KeepsAll};
ghost use Rattle.tree_lint.specs.Runs.{comment_line, linted_output, remarks_by, report_of};
ghost use Rattle.module_find.specs.Modules.{names_in};
ghost use Rattle.tree_lint.specs.Verdicts.{no_memory, too_many};
ghost use Rattle.tree_lint.specs.Inner.Showing.{HasOrNoMemory, Shows, comment_refusal, linted_view, refused_end};

use crate::comment_fault::CommentFault;
use crate::counts::Ended;
use crate::issue_remarks::{linted_text, name_of};
use crate::linted::Linted;
use crate::module_lines::ModuleLines;
use crate::run::ModuleTask;
use crate::shown::Shown;
use crate::terminal::show_lines;
use command_line::{Streams, write_parts};
use file_tree::path::place;
use hcl_scan::{ByteSink, Failed, write_fully};
use lint_forms::Form;
use module_find::Module;
use module_find::kept::KeptRefusals;
use module_find::refusal::{Refusal, tell_refusal};
use std::alloc::{AllocError, Global};
use tfrules_command::report::show_issues;
use tfrules_command::shown_names::ShownNames;

/// Writes the report of issues, with the lines that they are about if these are shown. Without an issue it writes
/// nothing.
fn show_report<O: ByteSink, N: ShownNames>(
    shows: bool,
    out: &mut O,
    names: &N,
    linted: Linted<'_, '_>,
)
    requires { O.failed out.old ≡ false }
    ensures { Took (writer O.ByteSink out.old out.new)
        (report_of shows (N.names names.now) (linted_view linted.entry)) }
{
    if shows {
        let _ = show_lines(out, names, linted.texts, linted.issues);
        return;
    }
    show_issues(out, names, linted.issues);
}

/// Writes an empty line and the report of issues. Without an issue it writes nothing.
fn show_parted<O: ByteSink, N: ShownNames>(
    shows: bool,
    out: &mut O,
    names: &N,
    linted: Linted<'_, '_>,
)
    requires { O.failed out.old ≡ false }
    ensures { Took (writer O.ByteSink out.old out.new)
        (after_empty_line true (report_of shows (N.names names.now) (linted_view linted.entry))) }
{
    if linted.issues.is_empty() {
        return;
    }
    if let Err(_fault) = write_fully(out, b"\n") {
        return;
    }
    show_report(shows, out, names, linted);
}

/// Writes the report of issues, after an empty line if other reports precede it.
fn show_after<O: ByteSink, N: ShownNames>(
    is_after: bool,
    shows: bool,
    out: &mut O,
    names: &N,
    linted: Linted<'_, '_>,
)
    requires { O.failed out.old ≡ false }
    ensures { Took (writer O.ByteSink out.old out.new)
        (after_empty_line is_after
        (report_of shows (N.names names.now) (linted_view linted.entry))) }
{
    if is_after {
        return show_parted(shows, out, names, linted);
    }
    show_report(shows, out, names, linted);
}

/// The refusal of a module at which memory ran out.
pub(crate) fn no_memory(one: &Module) -> Refusal<'_>
    ensures { refusal_view result ≡ no_memory one.now }
{
    Refusal::of_name(place(one.folder.as_slice()), "out of memory")
}

/// The refusal of a module with too many files.
pub(crate) fn too_many(one: &Module) -> Refusal<'_>
    ensures { refusal_view result ≡ too_many one.now }
{
    Refusal::of_name(place(one.folder.as_slice()), "more than 256 files")
}

/// The end of a run over a refused module.
pub(crate) const REFUSED: Ended = Ended {
    status: 1,
    issues: 0,
    is_shown: false,
};

/// Writes why a module is refused, and keeps the refusal.
pub(crate) fn refuse<E: ByteSink>(
    alloc: Global,
    refusal: Refusal<'_>,
    err: &mut E,
    kept: &mut KeptRefusals,
) -> Ended
    requires { E.failed err.old ≡ false }
    ensures took { Took (writer E.ByteSink err.old err.new)
        (refusal_line (refusal_view refusal.entry)) }
    ensures kept { KeepsAll kept.old kept.new (refusal_view refusal.entry ∷ []) }
    ensures ended { result ≡ refused_end }
{
    let _ = tell_refusal(err, refusal);
    kept.add(alloc, refusal);
    REFUSED
}

/// Writes the report of issues, with quoted names of the files.
fn show_text<O: ByteSink>(
    alloc: Global,
    task: ModuleTask,
    one: &Module,
    linted: Linted<'_, '_>,
    out: &mut O,
) -> Result<(), AllocError>
    requires out { O.failed out.old ≡ false }
    ensures ok { OnOk result (Took (writer O.ByteSink out.old out.new)
        (linted_output None task.manner.terminals.out task.is_after one.now
        (linted_view linted.entry))) }
    ensures err { OnErr result (out.new ≡ out.old) }
{
    let names = Shown::new(alloc, one.files.as_slice())?;
    show_after(
        task.is_after,
        task.manner.terminals.out,
        out,
        &names,
        linted,
    );
    Ok(())
}

/// Writes the result for a module, in a form.
fn show_form<O: ByteSink>(
    alloc: Global,
    form: Form,
    is_after: bool,
    one: &Module,
    linted: Linted<'_, '_>,
    out: &mut O,
) -> Result<(), AllocError>
    requires out { O.failed out.old ≡ false }
    ensures ok { OnOk result (Took (writer O.ByteSink out.old out.new)
        (module_text form is_after (remarks_by (names_in one.now) (linted_view linted.entry)))) }
    ensures err { OnErr result (out.new ≡ out.old) }
{
    let text = linted_text(alloc, form, is_after, one.files.as_slice(), linted)?;
    let _ = write_parts(out, &[text.as_slice()]);
    Ok(())
}

/// Writes the result for a module, as a report or in a form.
fn show_linted<O: ByteSink>(
    alloc: Global,
    task: ModuleTask,
    one: &Module,
    linted: Linted<'_, '_>,
    out: &mut O,
) -> Result<(), AllocError>
    requires out { O.failed out.old ≡ false }
    ensures ok { OnOk result (Took (writer O.ByteSink out.old out.new)
        (linted_output task.manner.form task.manner.terminals.out task.is_after one.now
        (linted_view linted.entry))) }
    ensures err { OnErr result (out.new ≡ out.old) }
{
    match task.manner.form {
        Some(form) => show_form(alloc, form, task.is_after, one, linted, out),
        None => show_text(alloc, task, one, linted, out),
    }
}

/// Writes the line of a comment in the file of this name, and the part of the file that is shown there.
fn tell_comment<'c, S: ByteSink>(
    sink: &mut S,
    name: &'c str,
    fault: &'c CommentFault,
    snippet: &'c [u8],
) -> Result<(), Failed>
    requires { S.failed sink.old ≡ false }
    ensures took { Took (writer S.ByteSink sink.old sink.new)
        (comment_refusal name.now snippet.now fault.now) }
    ensures failed { S.failed sink.new ≡ is_err result }
{
    tell_refusal(
        sink,
        Refusal {
            name: name.as_bytes(),
            at: Some(fault.at),
            text: fault.text.as_str(),
            snippet,
        },
    )
}

/// Writes the lines of comments in the files of these names, up to a write that fails.
fn tell_comments<E: ByteSink>(
    shows: bool,
    names: &[String],
    linted: Linted<'_, '_>,
    err: &mut E,
) -> Result<(), Failed>
    requires { E.failed err.old ≡ false }
    ensures took { Took (writer E.ByteSink err.old err.new)
        (flat_map (λ fault. comment_line shows (map string_bytes names.now)
        linted.entry.texts.now (fault_view fault)) linted.entry.comments.now) }
    ensures failed { E.failed err.new ≡ is_err result }
{
    let mut lines = ModuleLines::new(linted.texts);
    for fault in linted.comments {
        let line = lines.snippet_if(shows, fault.file, fault.at);
        tell_comment(err, name_of(names, fault.file), fault, line.as_slice())?;
    }
    Ok(())
}

/// Shows the result for a module, unless it is empty.
fn show_some<O: ByteSink, E: ByteSink>(
    alloc: Global,
    task: ModuleTask,
    one: &Module,
    linted: Linted<'_, '_>,
    streams: &mut Streams<O, E>,
    kept: &mut KeptRefusals,
) -> Ended
    requires out { O.failed streams.old.out ≡ false }
    requires err { E.failed streams.old.err ≡ false }
    ensures { Shows task one.now (HasOrNoMemory one.now (linted_view linted.entry))
        (writer O.ByteSink streams.old.out streams.new.out)
        (writer E.ByteSink streams.old.err streams.new.err)
        kept.old kept.new result }
{
    let Ok(()) = show_linted(alloc, task, one, linted, &mut streams.out) else {
        return refuse(alloc, no_memory(one), &mut streams.err, kept);
    };
    let shows = task.manner.terminals.err;
    let _ = tell_comments(shows, one.files.as_slice(), linted, &mut streams.err);
    Ended {
        status: linted.status(task.policy),
        issues: linted.issues.len(),
        is_shown: linted.has_output(task.manner.form),
    }
}

/// Shows the result for a module.
pub(crate) fn show<O: ByteSink, E: ByteSink>(
    alloc: Global,
    task: ModuleTask,
    one: &Module,
    linted: Linted<'_, '_>,
    streams: &mut Streams<O, E>,
    kept: &mut KeptRefusals,
) -> Ended
    requires out { O.failed streams.old.out ≡ false }
    requires err { E.failed streams.old.err ≡ false }
    ensures { Shows task one.now (HasOrNoMemory one.now (linted_view linted.entry))
        (writer O.ByteSink streams.old.out streams.new.out)
        (writer E.ByteSink streams.old.err streams.new.err)
        kept.old kept.new result }
{
    if linted.is_nothing() {
        return Ended {
            status: 0,
            issues: 0,
            is_shown: false,
        };
    }
    show_some(alloc, task, one, linted, streams, kept)
}

//! Writing a preview.
ghost use Rattle.std.specs.Prelude.{◌≡◌, ◌∷◌, ◌++◌, [], OnOk};
ghost use Rattle.ts_model.specs.Texts.{text};
ghost use Rattle.ts_preview.specs.Previews.{head_line, outlook_line, outlook_lines, preview_lines, total_line};
ghost use Rattle.ts_preview.specs.Totals.{totals_of};
ghost use Rattle.ts_text.specs.Sources.{Writes};

use crate::outlook::Outlook;
use crate::totals::{Totals, count};
use crate::{json, people};
use std::alloc::{AllocError, Global};
use ts_text::{Sink, TextFault, write_line};

/// For whom a preview is.
#[derive(Clone, Copy, Debug, PartialEq, Eq, Drop)]
pub enum Form {
    People,
    /// People at a terminal that shows colours.
    Coloured,
    /// Programs: a JSON object each line.
    Json,
}

/// Writes a preview: what stands above it, a line for each entry in their order, and the totals.
///
/// It fails where memory runs out or the sink fails. After a fault a beginning of the preview was written.
pub fn write<W: Sink>(
    alloc: Global,
    form: Form,
    all: &[Outlook<'_>],
    sink: &mut W,
) -> Result<(), TextFault>
    ensures { Writes (W.holds sink.old) (W.holds sink.new) (text (preview_lines form all.now)) result }
{
    write_head(form, sink)?;
    write_outlooks(alloc, form, all, sink)?;
    write_total(alloc, form, &count(all), sink)
}

/// Writes what stands above the entries.
fn write_head<W: Sink>(form: Form, sink: &mut W) -> Result<(), TextFault>
    ensures { Writes (W.holds sink.old) (W.holds sink.new) (text (head_line form ∷ [])) result }
{
    write_line(sink, head(form))
}

/// What stands above the entries.
fn head(form: Form) -> &'static [u8]
    ensures { result.now ≡ head_line form }
{
    match form {
        Form::People | Form::Coloured => people::HEAD,
        Form::Json => json::HEAD,
    }
}

/// Writes a line for each entry.
fn write_outlooks<W: Sink>(
    alloc: Global,
    form: Form,
    all: &[Outlook<'_>],
    sink: &mut W,
) -> Result<(), TextFault>
    ensures { Writes (W.holds sink.old) (W.holds sink.new) (text (outlook_lines form all.now)) result }
{
    for i in 0..all.len() {
        write_outlook(alloc, form, &all[i], sink)?;
    }
    Ok(())
}

/// Writes the line of an entry.
fn write_outlook<W: Sink>(
    alloc: Global,
    form: Form,
    outlook: &Outlook<'_>,
    sink: &mut W,
) -> Result<(), TextFault>
    ensures { Writes (W.holds sink.old) (W.holds sink.new) (text (outlook_line form outlook.now ∷ [])) result }
{
    let mut line = Vec::new(alloc);
    push_outlook(alloc, form, outlook, &mut line)?;
    write_line(sink, &line)
}

/// Appends the line of an entry.
fn push_outlook(
    alloc: Global,
    form: Form,
    outlook: &Outlook<'_>,
    line: &mut Vec<u8>,
) -> Result<(), AllocError>
    ensures { OnOk result (line.new.items ≡ line.old.items ++ outlook_line form outlook.now) }
{
    match form {
        Form::People => people::push_outlook(alloc, outlook, line),
        Form::Coloured => people::push_coloured(alloc, outlook, line),
        Form::Json => json::push_outlook(alloc, outlook, line),
    }
}

/// Writes the totals.
fn write_total<W: Sink>(
    alloc: Global,
    form: Form,
    totals: &Totals,
    sink: &mut W,
) -> Result<(), TextFault>
    ensures { Writes (W.holds sink.old) (W.holds sink.new) (text (total_line form totals.now ∷ [])) result }
{
    let mut line = Vec::new(alloc);
    push_total(form, totals, &mut line)?;
    write_line(sink, &line)
}

/// Appends the totals.
fn push_total(form: Form, totals: &Totals, line: &mut Vec<u8>) -> Result<(), AllocError>
    ensures { OnOk result (line.new.items ≡ line.old.items ++ total_line form totals.now) }
{
    match form {
        Form::People | Form::Coloured => people::push_total(totals, line),
        Form::Json => json::push_total(totals, line),
    }
}

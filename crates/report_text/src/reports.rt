// The text of a report.
ghost use Rattle.std.specs.Prelude.{◌≡◌, ◌++◌, IfOk, OnOk};
ghost use Rattle.term_value.specs.Outcomes.{outcome_text};
ghost use Rattle.term_value.specs.Reports.{end_line, shown_line};
ghost use Rattle.term_value.specs.Texts.{pid_text};

use erl_syntax::Text;
use itoa::Buffer;
use std::alloc::{AllocError, Global};
use term_value::Outcome;

// Adds the line of what was displayed.
fn push_shown(text: &mut Vec<u8>, shown: &Text) -> Result<(), AllocError>
    ensures { OnOk result (text.new.items ≡ text.old.items ++ shown_line shown.now) }
{
    text.extend_from_slice(shown.bytes())?;
    text.push(b'\n')?;
    Ok(())
}

fn push_pid(text: &mut Vec<u8>, pid: u32) -> Result<(), AllocError>
    ensures { OnOk result (text.new.items ≡ text.old.items ++ pid_text pid) }
{
    let mut buffer = Buffer::new();
    text.extend_from_slice(b"<0.")?;
    text.extend_from_slice(buffer.format(pid).as_bytes())?;
    text.extend_from_slice(b".0>")
}

// Adds the line of a process that was stopped, or that ended with this reason.
fn push_end(text: &mut Vec<u8>, pid: u32, reason: &Option<Text>) -> Result<(), AllocError>
    ensures { OnOk result (text.new.items ≡ text.old.items ++ end_line (pid, reason.now)) }
{
    match reason {
        None => {
            text.extend_from_slice(b"waiting ")?;
            push_pid(text, pid)?;
        }
        Some(reason) => {
            text.extend_from_slice(b"exit ")?;
            push_pid(text, pid)?;
            text.push(b' ')?;
            text.extend_from_slice(reason.bytes())?;
        }
    }
    text.push(b'\n')?;
    Ok(())
}

/// The report of a run: what was displayed, a line each, and then the ends that it names, by rising pid.
///
/// The error says that no memory was left. It takes time linear in the text.
pub fn report(alloc: Global, outcome: &Outcome) -> Result<Vec<u8>, AllocError>
    ensures { IfOk result (λ text. text.items ≡ outcome_text outcome.now) }
{
    let mut text = Vec::new(alloc);
    for shown in outcome.shown.items() {
        push_shown(&mut text, shown)?;
    }
    for (pid, reason) in outcome.ends.items() {
        push_end(&mut text, *pid, reason)?;
    }
    Ok(text)
}

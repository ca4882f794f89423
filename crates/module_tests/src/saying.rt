use module_accept::{Refusal, accept};
use std::alloc::{AllocError, Global};
use std::process::Abort;
use std::test::Fail;

/// What the check of a text says: `ok`, or the line of its first fault.
fn said(alloc: Global, text: &[u8]) -> Result<Vec<u8>, AllocError> {
    match accept(alloc, text) {
        Ok(_) => b"ok\n".to_vec(alloc),
        Err(Refusal::Line(line)) => Ok(line),
        Err(Refusal::Memory) => Err(AllocError),
    }
}

/// Compares what the check of a text says with what it has to say, which is written without its line feed.
pub fn says(rt: &impl Abort, alloc: Global, text: &str, wanted: &str) -> Result<(), Fail> {
    let found = said(alloc, text.as_bytes())?;
    let line = format!(in alloc; "{wanted}\n")?;
    assert_eq!(rt;
        found.as_slice(),
        line.as_bytes(),
        "{text} has to say {wanted}"
    );
    Ok(())
}

/// The same for a module with these forms behind its two attributes, so that they begin in line 3.
pub fn forms_say(rt: &impl Abort, alloc: Global, forms: &str, wanted: &str) -> Result<(), Fail> {
    let text = format!(in alloc; "-module(m).\n-export([main/0]).\n{forms}\n")?;
    says(rt, alloc, text.as_str(), wanted)
}

/// The same for each row's text, and what the check has to say of it.
pub fn each_says(rt: &impl Abort, alloc: Global, rows: &[(&str, &str)]) -> Result<(), Fail> {
    for (text, wanted) in rows {
        says(rt, alloc, text, wanted)?;
    }
    Ok(())
}

/// The same for each row's forms.
pub fn each_form_says(rt: &impl Abort, alloc: Global, rows: &[(&str, &str)]) -> Result<(), Fail> {
    for (forms, wanted) in rows {
        forms_say(rt, alloc, forms, wanted)?;
    }
    Ok(())
}

//! What a process asks for.
ghost use Rattle.std.specs.Prelude.{◌≡◌, IfOk};
ghost use Rattle.term_value.specs.Local.{is_normal};
ghost use Rattle.term_value.specs.Seen.{SAtom, STuple, then, end};
ghost use Rattle.code_tree.specs.PlainTerms.{value};
ghost use Rattle.plain_process.specs.Going.{asking_of, ending_for, ending_of};

use code_tree::PlainTerm;
use plain_moves::{Stop, Visible};
use process_acts::Asking;
use shares::Share;
use std::alloc::{AllocError, Global};
use term_value::{Term, tagged};

/// The number of the atom `normal`.
const NORMAL: u32 = 14;

/// The number of the atom `system_limit`.
const SYSTEM_LIMIT: u32 = 9;

/// What a visible act asks for.
pub fn asking_of(visible: &Visible) -> Result<Asking, AllocError>
    ensures { IfOk result (λ asking. asking ≡ asking_of visible.now) }
{
    match visible {
        Visible::Send(to, message) => Ok(Asking::Send(*to, message.share()?)),
        Visible::Show(shown) => Ok(Asking::Show(shown.share()?)),
        Visible::Start(module, function, arguments) => Ok(Asking::Start {
            module: *module,
            function: *function,
            arguments: arguments.again()?.into_list(),
        }),
    }
}

fn is_normal(reason: &PlainTerm) -> bool
    ensures { result ≡ is_normal (value reason.now) }
{
    match reason.term() {
        Term::Atom(atom) => *atom == NORMAL,
        _ => false,
    }
}

fn ending_for(reason: PlainTerm) -> Asking
    ensures { result ≡ ending_for reason }
{
    if is_normal(&reason) {
        return Asking::Done;
    }
    Asking::Raised(reason)
}

fn reason_of(alloc: Global, atom: u32, about: &PlainTerm) -> Result<PlainTerm, AllocError>
    ensures { IfOk result (λ reason. reason ≡ STuple (then (SAtom atom) (then about.now end))) }
{
    let about = about.share()?;
    Ok(PlainTerm::of(tagged(alloc, atom, about.into_term())?))
}

/// What a process that fell asks for.
pub fn ending_of(alloc: Global, stop: &Stop) -> Result<Asking, AllocError>
    ensures { IfOk result (λ asking. asking ≡ ending_of stop.now) }
{
    match stop {
        Stop::Atom(atom) => Ok(ending_for(PlainTerm::of(Term::Atom(*atom)))),
        Stop::Of(atom, about) => Ok(ending_for(reason_of(alloc, *atom, about)?)),
        Stop::Other(reason) => Ok(ending_for(reason.share()?)),
        Stop::Limit => Ok(Asking::Raised(PlainTerm::of(Term::Atom(SYSTEM_LIMIT)))),
    }
}

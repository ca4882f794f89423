//! What an ask is for.
ghost use Rattle.std.specs.Prelude.{◌≡◌, IfOk};
ghost use Rattle.code_tree.specs.PlainTerms.{value};
ghost use Rattle.code_tree.specs.Reading.{module_meant};
ghost use Rattle.term_value.specs.Value.{count};
ghost use Rattle.copy_machine.specs.Asks.{arguments_of, called_by, ended_by, is_more, is_start, message_to, shown_by};

use crate::call::Call;
use crate::ending::Ending;
use crate::world::World;
use code_tree::PlainTerm;
use process_acts::Asking;
use shares::Share;
use std::alloc::AllocError;
use term_value::Term;

/// The message, where the ask is to send one to this pid.
pub fn message_to(ask: &Option<Asking>, to: u32) -> Result<Option<PlainTerm>, AllocError>
    ensures { IfOk result (λ message. message ≡ message_to to ask.now) }
{
    match ask {
        Some(Asking::Send(receiver, message)) => {
            if *receiver == to {
                return Ok(Some(message.share()?));
            }
            Ok(None)
        }
        _ => Ok(None),
    }
}

/// The value, where the ask is to display one.
pub fn shown_by(ask: &Option<Asking>) -> Result<Option<PlainTerm>, AllocError>
    ensures { IfOk result (λ shown. shown ≡ shown_by ask.now) }
{
    match ask {
        Some(Asking::Show(shown)) => Ok(Some(shown.share()?)),
        _ => Ok(None),
    }
}

/// The call, where the ask is to start a process.
pub fn called_by(ask: &Option<Asking>) -> Result<Option<Call>, AllocError>
    ensures { IfOk result (λ call. call ≡ called_by ask.now) }
{
    match ask {
        Some(
            Asking::Start {
                module,
                function,
                arguments,
            },
        ) => {
            let arguments = arguments.share()?;
            Ok(Some(Call {
                module_name: *module,
                function: *function,
                arguments,
            }))
        }
        _ => Ok(None),
    }
}

/// Whether the ask is to start a process.
pub fn is_start(ask: &Option<Asking>) -> bool
    ensures { result ≡ is_start ask.now }
{
    match ask {
        Some(Asking::Start { .. }) => true,
        _ => false,
    }
}

/// Whether the ask is for more messages.
pub fn is_more(ask: &Option<Asking>) -> bool
    ensures { result ≡ is_more ask.now }
{
    match ask {
        Some(Asking::More) => true,
        _ => false,
    }
}

/// How the process ended, where it did.
pub fn ended_by(world: &World<'_>, ask: &Option<Asking>) -> Result<Option<Ending>, AllocError>
    ensures { IfOk result (λ ending. ending ≡ ended_by (module_meant world.now.code.now) ask.now) }
{
    match ask {
        Some(Asking::Done) => Ok(Some(Ending::Normal)),
        Some(Asking::Raised(reason)) => Ok(Some(Ending::Exit(world.text(reason)?))),
        _ => Ok(None),
    }
}

/// The number of the arguments in a list of them. The error says that there are too many to be counted.
pub fn arity(arguments: &PlainTerm) -> Result<u32, AllocError>
    ensures { IfOk result (λ arity. arity ≡ count (arguments_of (value arguments.now))) }
{
    match arguments.term() {
        Term::List(items) => {
            let many = items.length();
            if many == u32::MAX {
                return Err(AllocError);
            }
            Ok(many)
        }
        _ => Ok(0),
    }
}

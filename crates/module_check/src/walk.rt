//! The faults inside a function.

ghost use Rattle.std.specs.Prelude.{IfOk};
ghost use Rattle.module_check.specs.Order.{IsLeast};
ghost use Rattle.module_check.specs.Faults.{InnerFault};

use crate::index::Indexed;
use crate::order::first_of;
use crate::own::own_fault;
use crate::tasks::Walk;
use erl_syntax::{CheckFault, Function};
use std::alloc::{AllocError, Global};

/// The first fault inside the clauses of a function of the module.
pub(crate) fn inner_fault(
    alloc: Global,
    tree: &Indexed,
    function: &Function,
) -> Result<Option<CheckFault>, AllocError>
    ensures { IfOk result (λ r. IsLeast (InnerFault tree.now function.now) r) }
{
    let mut walk = Walk {
        alloc,
        nodes: Vec::new(alloc),
        tasks: Vec::new(alloc),
    };
    walk.push_clauses(function)?;
    let mut best = None;
    while let Some(task) = walk.tasks.pop() {
        walk.nodes.truncate(task.mark);
        best = first_of(best, own_fault(tree, &walk.nodes, task));
        walk.push_inside(task)?;
    }
    Ok(best)
}

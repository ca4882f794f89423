//! What a run came to.
ghost use Rattle.std.specs.Prelude.{◌≡◌, ◌++◌, IfOk, OnOk, true};
ghost use Rattle.std.specs.List.{list_all};
ghost use Rattle.copy_machine.specs.Replaying.{has_left, row_end, row_ends};

use crate::ending::Ending;
use crate::row::Row;
use erl_syntax::Text;
use std::alloc::{AllocError, Global};

// Adds what a report says of a process, where it ended otherwise than normally.
fn push_end<P: Drop>(
    ends: &mut Vec<(u32, Option<Text>)>,
    pid: u32,
    row: Row<P>,
) -> Result<(), AllocError>
    ensures { OnOk result (ends.new.items ≡ ends.old.items ++ row_end pid row) }
{
    match row {
        Row::Running(_) => Ok(()),
        Row::Ended { ending, gone: _ } => match ending {
            Ending::Normal => Ok(()),
            Ending::Exit(text) => {
                ends.push((pid, Some(text)))?;
                Ok(())
            }
            Ending::Waiting => {
                ends.push((pid, None))?;
                Ok(())
            }
        },
    }
}

/// The ends of processes for a report, by rising pid. The error says that memory ran out, or that there are too many processes.
pub fn ends_of<P: Drop>(
    alloc: Global,
    rows: Vec<Row<P>>,
) -> Result<Vec<(u32, Option<Text>)>, AllocError>
    ensures { IfOk result (λ ends. ends.items ≡ row_ends 1 rows.items) }
{
    let mut ends = Vec::new(alloc);
    let mut pid = 1u32;
    for row in rows {
        push_end(&mut ends, pid, row)?;
        match pid.checked_add(1) {
            None => return Err(AllocError),
            Some(next) => pid = next,
        }
    }
    Ok(ends)
}

// Whether the process is gone.
fn has_left<P>(row: &Row<P>) -> bool
    ensures { result ≡ has_left row.now }
{
    match row {
        Row::Running(_) => false,
        Row::Ended { ending: _, gone } => *gone,
    }
}

/// Whether all processes are gone.
pub fn all_left<P>(rows: &[Row<P>]) -> bool
    ensures { result ≡ list_all has_left rows.now }
{
    rows.iter().all(|row| has_left(row))
}

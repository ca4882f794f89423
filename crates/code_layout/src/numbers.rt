//! The numbers of a function's variables by their places.

ghost use Rattle.std.specs.Prelude.{◌≡◌, IfOk, List};
ghost use Rattle.erl_syntax.specs.Checking.{number_at};
ghost use Rattle.code_layout.specs.Lookups.{NumbersOf};

use erl_syntax::{Span, VarUse};
use std::alloc::{AllocError, Global};
use std::collections::BTreeMap;
use std::marker::Model;

/// The variables of a function, which are found by their places. Contracts see them as the list of the variables.
#[derive(Drop)]
pub(crate) struct Numbers<'a> {
    uses: &'a [VarUse],
    /// The number of the variable that stands at a line and a column.
    numbers: BTreeMap<(u32, u32), u32>,
}

impl<'a> Model for Numbers<'a> {
    ghost use Rattle.std.specs.Prelude.{List};
    ghost use Rattle.std.specs.Coded.{coded_list};
    ghost use Rattle.erl_syntax.specs.declared.checking.VarUse.{VarUse};
    ghost use Rattle.erl_syntax.specs.contracts.checking.VarUse as contracts;
    ghost use Rattle.code_layout.specs.Lookups.{NumbersOf};

    ghost Value = { List VarUse };

    ghost coded = { coded_list contracts.the_row.coded };

    ghost view = { λ n. n.uses.now };

    ghost invariant = { λ n. NumbersOf n.uses.now n.numbers };
}

fn numbers_of(alloc: Global, uses: &[VarUse]) -> Result<BTreeMap<(u32, u32), u32>, AllocError>
    ensures { IfOk result (λ numbers. NumbersOf uses.now numbers) }
{
    let mut numbers = BTreeMap::new(alloc);
    let mut left = uses.len();
    while left > 0 {
        left -= 1;
        let variable = &uses[left];
        numbers.insert((variable.at.line, variable.at.column), variable.number)?;
    }
    Ok(numbers)
}

impl<'a> Numbers<'a> {
    pub fn of(alloc: Global, uses: &'a [VarUse]) -> Result<Numbers<'a>, AllocError>
        ensures { IfOk result (λ numbers. numbers ≡ uses.now) }
    {
        Ok(Numbers {
            uses,
            numbers: numbers_of(alloc, uses)?,
        })
    }

    /// The number of the variable at this place, 0 where none stands there.
    pub fn at(&self, at: Span) -> u32
        ensures { result ≡ number_at self.now at }
    {
        self.numbers
            .get(&(at.line, at.column))
            .copied()
            .unwrap_or(0)
    }
}

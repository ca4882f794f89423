use erl_syntax::{
    CheckCause, CheckFault, Clause, Expr, Function, Guard, Head, Item, Listed, Module, Name,
    Pattern, Span, Text, VarUse,
};
use module_check::check;
use std::alloc::{AllocError, Global};
use std::test::Fail;

fn at(column: u32) -> Span {
    Span { line: 3, column }
}

fn text(alloc: Global, bytes: &[u8]) -> Result<Text, AllocError> {
    Ok(Text::of(bytes.to_vec(alloc)?))
}

/// `name = value`, with the variable in this column.
fn matched(alloc: Global, column: u32, name: &[u8], value: Expr) -> Result<Item, AllocError> {
    let pattern = Pattern::Var {
        at: at(column),
        name: text(alloc, name)?,
    };
    Ok(Item {
        patterns: Listed::of(vec![in alloc; pattern]?),
        value,
    })
}

/// `X = 1, Y = X`, with the second `X` in this column and the others in columns 11 and 18.
fn body(alloc: Global, column: u32) -> Result<Vec<Item>, AllocError> {
    let one = Expr::Int {
        at: at(15),
        value: 1,
    };
    let read = Expr::Var {
        at: at(column),
        name: text(alloc, b"X")?,
    };
    let first = matched(alloc, 11, b"X", one)?;
    let second = matched(alloc, 18, b"Y", read)?;
    Ok(vec![in alloc; first, second]?)
}

/// The function `main/0` with that body.
fn main_of(alloc: Global, column: u32) -> Result<Function, AllocError> {
    let clause = Clause {
        at: at(1),
        name: 0,
        patterns: Listed::of(Vec::new(alloc)),
        guard: Guard {
            alternatives: Listed::of(Vec::new(alloc)),
        },
        body: Listed::of(body(alloc, column)?),
    };
    Ok(Function {
        name: 0,
        arity: 0,
        clauses: Listed::of(vec![in alloc; clause]?),
    })
}

/// The module `m` with that function.
fn module(alloc: Global, column: u32) -> Result<Module, AllocError> {
    let head = Head { at: at(1), name: 1 };
    let export = Name {
        at: at(1),
        name: 0,
        arity: 0,
    };
    let function = main_of(alloc, column)?;
    let atoms = vec![in alloc; text(alloc, b"main")?, text(alloc, b"m")?]?;
    Ok(Module {
        heads: Listed::of(vec![in alloc; head]?),
        exports: Listed::of(vec![in alloc; export]?),
        functions: Listed::of(vec![in alloc; function]?),
        atoms: Listed::of(atoms),
        last: Span { line: 9, column: 1 },
    })
}

fn variable(column: u32, number: u32, binds: bool) -> VarUse {
    VarUse {
        at: at(column),
        number,
        binds,
    }
}

#[test]
fn variables_are_numbered_by_their_places(rt: HostRuntime) -> Result<(), Fail> {
    let alloc = rt.alloc();
    let wanted = [
        variable(11, 0, true),
        variable(18, 1, true),
        variable(22, 0, false),
    ];
    match check(alloc, module(alloc, 22)?) {
        Ok(checked) => {
            for uses in checked.vars() {
                assert_eq!(rt; uses.items(), wanted.as_slice());
            }
            assert_eq!(rt; checked.vars().len(), 1);
        }
        Err(fault) => assert_eq!(rt; Some(fault), None),
    }
    Ok(())
}

#[test]
fn a_place_that_two_variables_share_is_not_numbered(rt: HostRuntime) -> Result<(), Fail> {
    let alloc = rt.alloc();
    let fault = check(alloc, module(alloc, 18)?).err();
    let wanted = CheckFault {
        span: Span { line: 1, column: 1 },
        why: CheckCause::NoMemory,
    };
    assert_eq!(rt; fault, Some(wanted));
    Ok(())
}

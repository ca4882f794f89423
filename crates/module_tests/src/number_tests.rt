use module_accept::accept;
use std::alloc::{AllocError, Global};
use std::test::Fail;

/// Forms of a module `m`, with the numbers of its variables in the order of the text, `!` where one gets its value.
const FORMS: [(&str, &str); 14] = [
    ("main() -> 1.", ""),
    ("main() -> A = 1, B = A, {B, A}.", " 0! 1! 0 1 0"),
    ("main() -> B = 1, A = 2, A + B.", " 0! 1! 1 0"),
    ("main() -> A = 1, A = 1.", " 0! 0"),
    ("main() -> {X} = X = {5}, X.", " 0 0! 0"),
    ("main() -> _ = 1, _A = 2.", " 0!"),
    (
        "main() -> A = 1, f(A).\nf(B) -> C = B, C.",
        " 0! 0 0! 1! 0 1",
    ),
    (
        "main() -> f({1, 1}, 2).\nf({A, A}, B) -> A + B.",
        " 0! 0 1! 0 1",
    ),
    (
        "main() -> Z = 1, case Z of X -> X; Y -> {Y, Z} end.",
        " 0! 0 1! 1 2! 2 0",
    ),
    ("main() -> case 1 of X -> X; X -> X end.", " 0! 0 1! 1"),
    ("main() -> receive X when X > 0 -> X end.", " 0! 0 0"),
    (
        "main() -> X = [1], [X || X <- X, Y <- X, Y].",
        " 0! 1 1! 0 2! 1 2",
    ),
    (
        "main() -> << <<X>> || <<X:4>> <= <<1>>, X > 0 >>.",
        " 0 0! 0",
    ),
    (
        "main() -> <<N:8, B:N/binary, _/binary>> = <<1, 2, 3>>, {N, B}.",
        " 0! 1! 0 0 1",
    ),
];
/// The numbers of a module's variables in the order of the text, each behind a space, with `!` where the variable gets its value.
fn numbers(alloc: Global, text: &[u8]) -> Result<Option<String>, AllocError> {
    let Ok(checked) = accept(alloc, text) else {
        return Ok(None);
    };
    let mut told = String::new(alloc);
    for variables in checked.vars() {
        for variable in variables.items() {
            let mark = if variable.binds { "!" } else { "" };
            let one = format!(in alloc; " {}{mark}", variable.number)?;
            told.push_str(one.as_str())?;
        }
    }
    Ok(Some(told))
}

#[test]
fn variables_have_numbers(rt: HostRuntime) -> Result<(), Fail> {
    let alloc = rt.alloc();
    for (forms, wanted) in FORMS {
        let text = format!(in alloc; "-module(m).\n-export([main/0]).\n{forms}\n")?;
        let told = numbers(alloc, text.as_bytes())?.ok_or("refused")?;
        assert_eq!(rt; told.as_str(), wanted);
    }
    Ok(())
}

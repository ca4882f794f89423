use crate::saying::forms_say;
use std::test::Fail;

/// Calls that may stand in a guard and in a body, with and without the name of their module.
const ANYWHERE: [&str; 22] = [
    "is_integer(1)",
    "is_number(1)",
    "is_atom(a)",
    "is_boolean(true)",
    "is_pid(1)",
    "is_tuple({})",
    "is_list([])",
    "is_binary(<<>>)",
    "is_bitstring(<<>>)",
    "bit_size(<<>>)",
    "byte_size(<<>>)",
    "tuple_size({})",
    "element(1, {2})",
    "length([])",
    "hd([1])",
    "tl([1])",
    "abs(1)",
    "max(1, 2)",
    "min(1, 2)",
    "self()",
    "binary_part(<<>>, 0, 0)",
    "binary_part(<<>>, {0, 0})",
];

/// Calls that may stand in a body alone, with and without the name of their module.
const BODIES: [&str; 10] = [
    "spawn(m, main, [])",
    "exit(1)",
    "error(1)",
    "split_binary(<<>>, 0)",
    "binary_to_list(<<>>)",
    "list_to_binary([])",
    "integer_to_binary(1)",
    "binary_to_integer(<<>>)",
    "tuple_to_list({})",
    "list_to_tuple([])",
];

#[test]
fn built_in_functions_are_called(rt: HostRuntime) -> Result<(), Fail> {
    let alloc = rt.alloc();
    for call in ANYWHERE {
        let forms = format!(in alloc;
            "main() when {call}, erlang:{call} -> {call}, erlang:{call}."
        )?;
        forms_say(&rt, alloc, forms.as_str(), "ok")?;
    }
    for call in BODIES {
        let body = format!(in alloc; "main() -> {call}, erlang:{call}.")?;
        forms_say(&rt, alloc, body.as_str(), "ok")?;
        let bare = format!(in alloc; "main() when {call} -> ok.")?;
        forms_say(&rt, alloc, bare.as_str(), "3:13: call in guard")?;
        let full = format!(in alloc; "main() when erlang:{call} -> ok.")?;
        forms_say(&rt, alloc, full.as_str(), "3:13: call in guard")?;
    }
    Ok(())
}

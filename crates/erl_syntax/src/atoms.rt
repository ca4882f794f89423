ghost use Rattle.std.specs.Prelude.{◌≡◌, map};
ghost use Rattle.erl_syntax.specs.Atoms.{fixed_atoms};

/// The atoms that the rules name, in the order of their numbers: they stand at the head of each module's table of atoms.
pub const FIXED_ATOMS: [&[u8]; 15] = [
    b"badarg",
    b"badarith",
    b"badmatch",
    b"case_clause",
    b"if_clause",
    b"function_clause",
    b"bad_generator",
    b"bad_filter",
    b"undef",
    b"system_limit",
    b"reductions",
    b"true",
    b"false",
    b"ok",
    b"normal",
];

/// The bytes of `FIXED_ATOMS` are the definition's.
pub fn fixed_atoms_are_named()
    ensures { map (λ atom. atom.now) FIXED_ATOMS ≡ fixed_atoms }
{}

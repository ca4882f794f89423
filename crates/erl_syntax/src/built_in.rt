ghost use Rattle.std.specs.Prelude.{◌≡◌};
ghost use Rattle.erl_syntax.specs.BuiltIns.{name_of, arity_of, is_for_guards, is_bare, home_of};

/// A built-in function: one for each name and number of arguments (Erlang Reference Manual, "Guard Sequences";
/// the documentation of the modules `erlang` and `lists`).
#[derive(Clone, Copy, Debug, PartialEq, Eq)]
pub enum BuiltIn {
    IsInteger,
    IsNumber,
    IsAtom,
    IsBoolean,
    IsPid,
    IsTuple,
    IsList,
    IsBinary,
    IsBitstring,
    BitSize,
    ByteSize,
    TupleSize,
    Element,
    Length,
    Hd,
    Tl,
    Abs,
    Max,
    Min,
    /// `self/0`
    SelfPid,
    /// `binary_part/3`
    BinaryPart,
    /// `binary_part/2`, with a position and a length in a tuple
    BinaryPartOf,
    Display,
    Spawn,
    Exit,
    Error,
    SplitBinary,
    BinaryToList,
    ListToBinary,
    IntegerToBinary,
    BinaryToInteger,
    TupleToList,
    ListToTuple,
    /// `lists:reverse/1`
    Reverse,
}

/// All built-in functions. Those before `Display` may be called in guards.
pub const BUILT_INS: [BuiltIn; 34] = [
    BuiltIn::IsInteger,
    BuiltIn::IsNumber,
    BuiltIn::IsAtom,
    BuiltIn::IsBoolean,
    BuiltIn::IsPid,
    BuiltIn::IsTuple,
    BuiltIn::IsList,
    BuiltIn::IsBinary,
    BuiltIn::IsBitstring,
    BuiltIn::BitSize,
    BuiltIn::ByteSize,
    BuiltIn::TupleSize,
    BuiltIn::Element,
    BuiltIn::Length,
    BuiltIn::Hd,
    BuiltIn::Tl,
    BuiltIn::Abs,
    BuiltIn::Max,
    BuiltIn::Min,
    BuiltIn::SelfPid,
    BuiltIn::BinaryPart,
    BuiltIn::BinaryPartOf,
    BuiltIn::Display,
    BuiltIn::Spawn,
    BuiltIn::Exit,
    BuiltIn::Error,
    BuiltIn::SplitBinary,
    BuiltIn::BinaryToList,
    BuiltIn::ListToBinary,
    BuiltIn::IntegerToBinary,
    BuiltIn::BinaryToInteger,
    BuiltIn::TupleToList,
    BuiltIn::ListToTuple,
    BuiltIn::Reverse,
];

impl BuiltIn {
    /// The characters of its name.
    pub fn name(self) -> &'static [u8]
        ensures { result.now ≡ name_of self }
    {
        match self {
            BuiltIn::IsInteger => b"is_integer",
            BuiltIn::IsNumber => b"is_number",
            BuiltIn::IsAtom => b"is_atom",
            BuiltIn::IsBoolean => b"is_boolean",
            BuiltIn::IsPid => b"is_pid",
            BuiltIn::IsTuple => b"is_tuple",
            BuiltIn::IsList => b"is_list",
            BuiltIn::IsBinary => b"is_binary",
            BuiltIn::IsBitstring => b"is_bitstring",
            BuiltIn::BitSize => b"bit_size",
            BuiltIn::ByteSize => b"byte_size",
            BuiltIn::TupleSize => b"tuple_size",
            BuiltIn::Element => b"element",
            BuiltIn::Length => b"length",
            BuiltIn::Hd => b"hd",
            BuiltIn::Tl => b"tl",
            BuiltIn::Abs => b"abs",
            BuiltIn::Max => b"max",
            BuiltIn::Min => b"min",
            BuiltIn::SelfPid => b"self",
            BuiltIn::BinaryPart | BuiltIn::BinaryPartOf => b"binary_part",
            BuiltIn::Display => b"display",
            BuiltIn::Spawn => b"spawn",
            BuiltIn::Exit => b"exit",
            BuiltIn::Error => b"error",
            BuiltIn::SplitBinary => b"split_binary",
            BuiltIn::BinaryToList => b"binary_to_list",
            BuiltIn::ListToBinary => b"list_to_binary",
            BuiltIn::IntegerToBinary => b"integer_to_binary",
            BuiltIn::BinaryToInteger => b"binary_to_integer",
            BuiltIn::TupleToList => b"tuple_to_list",
            BuiltIn::ListToTuple => b"list_to_tuple",
            BuiltIn::Reverse => b"reverse",
        }
    }

    /// The number of its arguments.
    pub fn arity(self) -> usize
        ensures { result ≡ arity_of self }
    {
        match self {
            BuiltIn::SelfPid => 0,
            BuiltIn::Element
            | BuiltIn::Max
            | BuiltIn::Min
            | BuiltIn::BinaryPartOf
            | BuiltIn::SplitBinary => 2,
            BuiltIn::BinaryPart | BuiltIn::Spawn => 3,
            _ => 1,
        }
    }

    /// The name of its module.
    pub fn home(self) -> &'static [u8]
        ensures { result.now ≡ home_of self }
    {
        match self {
            BuiltIn::Reverse => b"lists",
            _ => b"erlang",
        }
    }

    /// Whether it may be called without the name of its module.
    pub fn is_bare(self) -> bool
        ensures { result ≡ is_bare self }
    {
        match self {
            BuiltIn::Display | BuiltIn::Reverse => false,
            _ => true,
        }
    }

    /// Whether it may be called in a guard.
    pub fn is_for_guards(self) -> bool
        ensures { result ≡ is_for_guards self }
    {
        match self {
            BuiltIn::Display
            | BuiltIn::Spawn
            | BuiltIn::Exit
            | BuiltIn::Error
            | BuiltIn::SplitBinary
            | BuiltIn::BinaryToList
            | BuiltIn::ListToBinary
            | BuiltIn::IntegerToBinary
            | BuiltIn::BinaryToInteger
            | BuiltIn::TupleToList
            | BuiltIn::ListToTuple
            | BuiltIn::Reverse => false,
            _ => true,
        }
    }
}

use crate::{Alt, Branch, Listed, Qual, Segment, Span, Text};

/// An expression.
///
/// Parentheses leave no trace: `at` of a part in parentheses is the place of the first character inside them.
#[derive(Debug, Drop)]
#[cycle(tree)]
pub enum Expr {
    Var {
        at: Span,
        name: Text,
    },
    /// `_`, which stands only as the value of a pattern's segment.
    Wild {
        at: Span,
    },
    Int {
        at: Span,
        value: i128,
    },
    Char {
        at: Span,
        value: u32,
    },
    Atom {
        at: Span,
        atom: u32,
    },
    /// `?MODULE`.
    ModuleName {
        at: Span,
    },
    /// The characters' numbers.
    Str {
        at: Span,
        chars: Listed<u32>,
    },
    Tuple {
        at: Span,
        items: Listed<Expr>,
    },
    /// The tail has no item or one.
    List {
        at: Span,
        items: Listed<Expr>,
        tail: Listed<Expr>,
    },
    Bits {
        at: Span,
        segments: Listed<Segment>,
    },
    /// `[row || quals]`: the row has one item.
    ListFor {
        at: Span,
        row: Listed<Expr>,
        quals: Listed<Qual>,
    },
    /// `<<row || quals>>`: the row has one item.
    BitsFor {
        at: Span,
        row: Listed<Expr>,
        quals: Listed<Qual>,
    },
    /// The module has no item, or one that is an atom or `?MODULE`.
    Call {
        at: Span,
        module: Listed<Expr>,
        name: u32,
        args: Listed<Expr>,
    },
    /// The value has one item.
    Case {
        at: Span,
        value: Listed<Expr>,
        alts: Listed<Alt>,
    },
    Receive {
        at: Span,
        alts: Listed<Alt>,
    },
    If {
        at: Span,
        branches: Listed<Branch>,
    },
    /// The part has one item.
    Unary {
        at: Span,
        op: Prefix,
        part: Listed<Expr>,
    },
    /// The parts are two, left first.
    Binary {
        at: Span,
        op: Op,
        parts: Listed<Expr>,
    },
}

/// An operator between two expressions.
///
/// `Eq` to `Gt` are `==`, `/=`, `=<`, `<`, `>=` and `>`, `Same` is `=:=`, `NotSame` is `=/=`, and `Send` is `!`.
#[derive(Clone, Copy, Debug, PartialEq, Eq)]
pub enum Op {
    Mul,
    Div,
    Rem,
    Band,
    Add,
    Sub,
    Bor,
    Bxor,
    Bsl,
    Bsr,
    Eq,
    Ne,
    Le,
    Lt,
    Ge,
    Gt,
    Same,
    NotSame,
    AndAlso,
    OrElse,
    Send,
}

/// An operator before an expression.
#[derive(Clone, Copy, Debug, PartialEq, Eq)]
pub enum Prefix {
    Plus,
    Minus,
    Bnot,
    Not,
}

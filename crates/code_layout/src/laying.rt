ghost use Rattle.std.specs.Prelude.{◌≡◌};
ghost use Rattle.code_layout.specs.Layout.{reading_of};

use crate::names::Names;
use crate::numbers::Numbers;
use erl_syntax::Span;
use std::alloc::Global;

/// What the layout of a function looks up.
#[derive(Clone, Copy)]
pub(crate) struct Laying<'a> {
    pub alloc: Global,
    pub names: &'a Names<'a>,
    pub numbers: &'a Numbers<'a>,
}

impl<'a> Laying<'a> {
    /// The number of the variable at this place.
    #[tactic(auto, unfolding(crate::specs::Layout::reading_of))]
    pub fn number(&self, at: Span) -> u32
        ensures { result ≡ (reading_of self.now).number_at at }
    {
        self.numbers.at(at)
    }

    /// The module's own name.
    #[tactic(auto, unfolding(crate::specs::Layout::reading_of))]
    pub fn own_name(&self) -> u32
        ensures { result ≡ (reading_of self.now).module_name }
    {
        self.names.own()
    }
}

//! What an open part does.
ghost use Rattle.std.specs.Prelude.{IfOk};
ghost use Rattle.plain_moves.specs.Moving.{IsMove};
ghost use Rattle.plain_moves.specs.Reading.{part_tree};
ghost use Rattle.plain_moves.specs.Worlds.{world_of};
ghost use Rattle.code_match.specs.Binds.{bounds};
ghost use Rattle.code_tree.specs.Reading.{tree_of};
ghost use Rattle.term_value.specs.PutIn.{put_in};
ghost use Rattle.term_value.specs.Step as step;

use crate::bodies::open_body;
use crate::calls::call;
use crate::comprehensions::{open_comprehension, open_qualifiers, open_rows};
use crate::expressions::{
    open_and_also, open_case, open_form, open_if, open_literal, open_or_else, open_receive,
    open_variable,
};
use crate::focus::Open;
use crate::moves::Move;
use crate::scene::Scene;
use code_match::Bindings;
use code_tree::Tree;
use std::alloc::AllocError;

/// What an open part does.
pub fn open<'a>(scene: &Scene<'a>, part: Open<'a>) -> Result<Move<'a>, AllocError>
    ensures { IfOk result (λ made. IsMove (world_of scene.now) (part_tree (step.setting (world_of scene.now)) part.entry) made) }
{
    match part {
        Open::Tree(tree, bindings) => open_tree(scene, tree, bindings),
        Open::Body(lines, bindings) => open_body(lines, bindings),
        Open::Call(function, arguments) => call(scene, function, arguments),
        Open::Rows(gathering) => open_rows(scene, gathering),
        Open::Qualifiers(gathering, further) => open_qualifiers(scene, gathering, further),
    }
}

fn open_tree<'a>(
    scene: &Scene<'a>,
    tree: &'a Tree,
    bindings: Bindings,
) -> Result<Move<'a>, AllocError>
    ensures { IfOk result (λ made. IsMove (world_of scene.now) (put_in (bounds bindings) (tree_of tree.now)) made) }
{
    match tree {
        Tree::Value(term) => open_literal(term),
        Tree::Variable(variable) => open_variable(*variable, &bindings),
        Tree::All(form, parts) => open_form(scene, form, parts.items(), bindings),
        Tree::Case(first, clauses) => open_case(first.get(), clauses.items(), bindings),
        Tree::AndAlso(first, second) => open_and_also(first.get(), second.get(), bindings),
        Tree::OrElse(first, second) => open_or_else(first.get(), second.get(), bindings),
        Tree::If(clauses) => open_if(scene, clauses.items(), &bindings),
        Tree::Receive(clauses) => Ok(open_receive(clauses.items(), bindings)),
        Tree::Comprehension(kind, qualifiers, row) => {
            open_comprehension(scene, *kind, qualifiers.items(), row.get(), bindings)
        }
    }
}

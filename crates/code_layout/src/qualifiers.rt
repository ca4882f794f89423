ghost use Rattle.std.specs.Prelude.{◌≡◌, map, IfOk};
ghost use Rattle.term_value.specs.Tree as t;
ghost use Rattle.code_tree.specs.Reading.{tree_of, qualifier_of, nothing_of, qualifiers_of};
ghost use Rattle.code_layout.specs.Layout.{reading_of, qualifier_read};
ghost use Rattle.code_layout.specs.Readings.{qual_read};

use crate::expressions::expression;
use crate::laying::Laying;
use crate::patterns::pattern;
use crate::segments::matched;
use crate::shapes::shape;
use code_tree::{Collected, Generator, Qualifier, Tree};
use erl_syntax::{Listed, Qual};
use shares::Held;
use std::alloc::{AllocError, Global};

/// A qualifier.
#[cycle(lay)]
fn qualifier(laying: &Laying, qual: &Qual) -> Result<Qualifier, AllocError>
    ensures { IfOk result (λ found. qualifier_of found ≡ qualifier_read (qual_read (reading_of laying.now) qual.now)) }
{
    match qual {
        Qual::Items {
            pattern: read,
            source,
            ..
        } => {
            let source = expression(laying, source)?;
            let pattern = pattern(laying, read)?;
            Ok(Qualifier::Generates(source, Generator::InList(pattern)))
        }
        Qual::Bits {
            segments,
            source,
            ..
        } => {
            let source = expression(laying, source)?;
            let segments = matched(laying, segments.items())?;
            let shape = shape(laying.alloc, &segments)?;
            let generator = Generator::InBits(Listed::of(segments), Listed::of(shape));
            Ok(Qualifier::Generates(source, generator))
        }
        Qual::Filter { test, .. } => Ok(Qualifier::Filters(expression(laying, test)?)),
    }
}

/// The qualifiers of a comprehension.
#[cycle(lay)]
pub(crate) fn qualifiers(laying: &Laying, quals: &[Qual]) -> Result<Listed<Qualifier>, AllocError>
    ensures { IfOk result (λ found. map qualifier_of found ≡ map (λ g. qualifier_read (qual_read (reading_of laying.now) g)) quals.now) }
{
    let mut found = Vec::new(laying.alloc);
    for qual in quals {
        let qualifier = qualifier(laying, qual)?;
        found.push(qualifier)?;
    }
    Ok(Listed::of(found))
}

/// A comprehension.
pub(crate) fn comprehension(
    alloc: Global,
    collected: Collected,
    row: Tree,
    qualifiers: Listed<Qualifier>,
) -> Result<Tree, AllocError>
    ensures { IfOk result (λ tree. tree_of tree ≡ t.Gather (nothing_of collected) (qualifiers_of qualifiers row) t.bottom) }
{
    let row = Held::new(alloc, row)?;
    Ok(Tree::Comprehension(collected, qualifiers, row))
}

//! Comparisons and period relations: from the syntax tree to bound conditions.
ghost use Rattle.std.specs.Prelude.{◌≡◌};
ghost use Rattle.tql_period.specs.Relations.{plain_relation};
ghost use Rattle.tql_syntax_tree.specs.Conditions.{comparison_of, relation_of};
ghost use Rattle.tql_value.specs.Views.{plain_comparison};

use tql_period::predicates as period;
use tql_syntax_tree::condition::{Comparison, Relation};
use tql_value::comparison as value;

/// Returns the bound form of a comparison.
pub(crate) fn comparison(written: Comparison) -> value::Comparison
    ensures { plain_comparison result ≡ comparison_of written }
{
    match written {
        Comparison::Equals => value::Comparison::Equal,
        Comparison::Differs => value::Comparison::NotEqual,
        Comparison::Below => value::Comparison::Less,
        Comparison::AtMost => value::Comparison::LessOrEqual,
        Comparison::Above => value::Comparison::Greater,
        Comparison::AtLeast => value::Comparison::GreaterOrEqual,
    }
}

/// Returns the bound form of a relation of two periods.
pub(crate) fn relation(written: Relation) -> period::Relation
    ensures { plain_relation result ≡ relation_of written }
{
    match written {
        Relation::Overlaps => period::Relation::Overlaps,
        Relation::Equals => period::Relation::Equals,
        Relation::Precedes => period::Relation::Precedes,
        Relation::Succeeds => period::Relation::Succeeds,
        Relation::ImmediatelyPrecedes => period::Relation::ImmediatelyPrecedes,
        Relation::ImmediatelySucceeds => period::Relation::ImmediatelySucceeds,
    }
}

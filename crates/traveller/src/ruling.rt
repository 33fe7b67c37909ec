//! The factors by which the rule of a plan chooses.

ghost use Rattle.std.specs.Prelude.{IsTrue};
ghost use Rattle.walk_model.specs.Ranges.{rule_in_range};
ghost use Rattle.traveller.specs.RuleFactors.{AreFactors, AreTyped};

use factor_table::FactorTable;
use metapath_walk::scheme_factors;
use node2vec_walk::node_factors;
use walk_model::{Kinds, Rule};

/// The factors of the classes of a rule.
#[derive(Drop)]
pub enum TypedFactors<'a> {
    Plain,
    Scheme {
        kinds: &'a Kinds,
        factors: FactorTable<2>,
    },
    Node2vec {
        factors: FactorTable<3>,
    },
}

/// The same, and the one factor of steps without a rule.
#[derive(Drop)]
pub struct RuleFactors<'a> {
    pub one: FactorTable<1>,
    pub typed: TypedFactors<'a>,
}

/// The factors of the classes of a rule.
fn typed_factors(rule: &Rule) -> TypedFactors<'_>
    requires { IsTrue (rule_in_range rule.now) }
    ensures { AreTyped rule.now result }
{
    match rule {
        Rule::Plain => TypedFactors::Plain,
        Rule::Scheme { kinds } => TypedFactors::Scheme {
            kinds,
            factors: scheme_factors(),
        },
        Rule::Node2vec { p, q } => TypedFactors::Node2vec {
            factors: node_factors(*p, *q),
        },
    }
}

/// The factors by which a rule chooses.
pub fn rule_factors(rule: &Rule) -> RuleFactors<'_>
    requires { IsTrue (rule_in_range rule.now) }
    ensures { AreFactors rule.now result }
{
    RuleFactors {
        one: FactorTable::new([1]),
        typed: typed_factors(rule),
    }
}

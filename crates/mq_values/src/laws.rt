ghost use Rattle.std.specs.Prelude.{◌≡◌, ◌≢◌, IsTrue, List, IfSome};
ghost use Rattle.std.specs.Cmp.{IsTotalOrder};
ghost use Rattle.std.specs.declared.cmp.Ordering.TheVariants.{Equal};
ghost use Rattle.mq_values.specs.Laws.{is_of};
ghost use Rattle.mq_values.specs.Order.{cmp_key, cmp_value, compared};
ghost use Rattle.mq_values.specs.Print.{printed};
ghost use Rattle.mq_values.specs.declared.value.Kind.{Kind};
ghost use Rattle.mq_values.specs.declared.value.Value.{Value};

/// The total order of values is antisymmetric, transitive and total, and values that it finds equal are the same.
pub fn values_are_ordered()
    ensures order { IsTotalOrder cmp_value }
    ensures itself { (a : Value) → cmp_value a a ≡ Equal }
    ensures apart { (a b : Value) → cmp_value a b ≡ Equal → a ≡ b }
{}

/// Keys are ordered as values are, by the first place in which they differ.
pub fn keys_are_ordered()
    ensures order { IsTotalOrder cmp_key }
    ensures itself { (a : List Value) → cmp_key a a ≡ Equal }
    ensures apart { (a b : List Value) → cmp_key a b ≡ Equal → a ≡ b }
{}

/// The total order agrees with comparison: what a comparison finds less or greater, the order does too, and
/// what the order finds equal a comparison finds equal.
pub fn order_agrees_with_comparison()
    ensures different { (a b : Value) → IfSome (compared a b) (λ r. r ≢ Equal → cmp_value a b ≡ r) }
    ensures equal { (a b : Value) → cmp_value a b ≡ Equal → IfSome (compared a b) (λ r. r ≡ Equal) }
{}

/// Two different values of one kind print differently.
pub fn values_print_apart()
    ensures { (k : Kind) (a b : Value) → IsTrue (is_of k a) → IsTrue (is_of k b) → printed a ≡ printed b → a ≡ b }
{}

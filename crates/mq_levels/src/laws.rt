//! Laws of the definitions. The functions do nothing: what they ensure is the law.

ghost use Rattle.std.specs.Prelude.{◌≡◌, ◌<◌, ◌≤◌, ℕ, Bool, true, false, List, length};
ghost use Rattle.std.specs.List.{Contains, list_any};
ghost use Rattle.mq_levels.specs.Levels.{ReadsNodes, levelled, reads_of};

/// What is levelled stays levelled.
pub fn what_is_levelled_stays_levelled()
    ensures { (reads : List (List ℕ)) (n later node : ℕ) → n ≤ later →
        levelled reads n node ≡ true → levelled reads later node ≡ true }
{}

/// As many rounds as nodes are enough: what is not levelled then is never levelled.
pub fn as_many_rounds_as_nodes_are_enough()
    ensures { (reads : List (List ℕ)) → ReadsNodes reads →
        (later node : ℕ) → length reads ≤ later → node < length reads →
        levelled reads later node ≡ levelled reads (length reads) node }
{}

/// Nodes of which each reads one of them are never levelled.
pub fn nodes_of_a_circle_are_never_levelled()
    ensures { (reads : List (List ℕ)) (circle : ℕ → Bool) →
        ((node : ℕ) → circle node ≡ true → list_any circle (reads_of reads node) ≡ true) →
        (n node : ℕ) → circle node ≡ true → levelled reads n node ≡ false }
{}

/// A node that reads itself is never levelled.
pub fn nodes_that_read_themselves_are_never_levelled()
    ensures { (reads : List (List ℕ)) (node : ℕ) → Contains (reads_of reads node) node →
        (n : ℕ) → levelled reads n node ≡ false }
{}

//! Whether what was read is what was read before. Each answer `true` tells that two things are one; `false` tells nothing.
ghost use Rattle.std.specs.Prelude.{◌≡◌, true};

use mq_ir::{PartInput, RefArray};
use mq_values::{Items, Key};

/// Whether these are the same input.
pub fn is_same_input(a: &PartInput, b: &PartInput) -> bool
    ensures { result ≡ true → a.now ≡ b.now }
{
    is_same_key(&a.key, &b.key)
        & is_same_tuple(&a.repeated, &b.repeated)
        & are_same_cells(a.cells.as_slice(), b.cells.as_slice())
}

/// Whether these are the same rows of FOR subqueries.
pub fn are_same_lists(a: &[Items<Key>], b: &[Items<Key>]) -> bool
    ensures { result ≡ true → a.now ≡ b.now }
{
    if a.len() != b.len() {
        return false;
    }
    for at in 0..a.len() {
        if !are_same_keys(a[at].as_slice(), b[at].as_slice()) {
            return false;
        }
    }
    true
}

/// Whether these are the same arrays of references.
pub fn are_same_arrays(a: &[RefArray], b: &[RefArray]) -> bool
    ensures { result ≡ true → a.now ≡ b.now }
{
    if a.len() != b.len() {
        return false;
    }
    for at in 0..a.len() {
        if !are_same_cells(a[at].cells.as_slice(), b[at].cells.as_slice()) {
            return false;
        }
    }
    true
}

fn are_same_cells(a: &[(Key, Key)], b: &[(Key, Key)]) -> bool
    ensures { result ≡ true → a.now ≡ b.now }
{
    if a.len() != b.len() {
        return false;
    }
    for at in 0..a.len() {
        if !is_same_cell(&a[at], &b[at]) {
            return false;
        }
    }
    true
}

fn is_same_cell(a: &(Key, Key), b: &(Key, Key)) -> bool
    ensures { result ≡ true → a.now ≡ b.now }
{
    is_same_key(&a.0, &b.0) && is_same_key(&a.1, &b.1)
}

/// Whether these are the same tuples.
pub fn are_same_keys(a: &[Key], b: &[Key]) -> bool
    ensures { result ≡ true → a.now ≡ b.now }
{
    if a.len() != b.len() {
        return false;
    }
    for at in 0..a.len() {
        if !is_same_key(&a[at], &b[at]) {
            return false;
        }
    }
    true
}

fn is_same_tuple(a: &Option<Key>, b: &Option<Key>) -> bool
    ensures { result ≡ true → a.now ≡ b.now }
{
    match (a, b) {
        (Some(a), Some(b)) => is_same_key(a, b),
        (None, None) => true,
        _ => false,
    }
}

/// Whether these are one tuple.
pub fn is_same_key(a: &Key, b: &Key) -> bool
    ensures { result ≡ true → a.now ≡ b.now }
{
    *a == *b
}

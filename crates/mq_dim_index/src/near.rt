//! Where a key stands that is likely to be near a known place.
ghost use Rattle.std.specs.Prelude.{◌≡◌, ◌<◌, ◌≤◌, length, true, Some, IfSome};
ghost use Rattle.std.specs.List.Sorted.{IsStrictlySortedBy};
ghost use Rattle.mq_values.specs.Order.{cmp_key};
ghost use Rattle.mq_dim_index.specs.Places.{place_of};
ghost use Rattle.mq_dim_index.specs.declared.search.TheConstants.{MAX_KEYS};

use crate::search::search;
use mq_values::{Key, Value};
use std::cmp::Ordering;

/// The number of the place at which `key` stands among these ascending keys, or `None` where it is not there. The place `near`
/// and the one beside it on the side of the key are looked at before all others.
pub fn place_near(keys: &[Key], key: &[Value], near: usize) -> Option<usize>
    requires { IsStrictlySortedBy cmp_key keys.now }
    ensures { result ≡ place_of keys.now key.now }
{
    match place_around(keys, key, near) {
        Some(at) => Some(at),
        None => match search(keys, key) {
            Ok(at) => Some(at),
            Err(_) => None,
        },
    }
}

// The same, as a number.
pub fn number_near(keys: &[Key], key: &[Value], near: u32) -> Option<u32>
    requires ascending { IsStrictlySortedBy cmp_key keys.now }
    requires numbered { length keys.now ≤ MAX_KEYS }
    ensures { result ≡ place_of keys.now key.now }
{
    match place_around(keys, key, near as usize) {
        Some(at) => Some(at as u32),
        None => match search(keys, key) {
            Ok(at) => Some(at as u32),
            Err(_) => None,
        },
    }
}

// The place of `key` where it is `near` or the one beside it; `None` says nothing.
fn place_around(keys: &[Key], key: &[Value], near: usize) -> Option<usize>
    requires { IsStrictlySortedBy cmp_key keys.now }
    ensures within { IfSome result (λ at. at < length keys.now) }
    ensures found { IfSome result (λ at. place_of keys.now key.now ≡ Some at) }
{
    let Some(own) = keys.get(near) else {
        return None;
    };
    match key.cmp(own.as_slice()) {
        Ordering::Equal => Some(near),
        Ordering::Less if near > 0 => place_if_there(keys, key, near - 1),
        Ordering::Less => None,
        Ordering::Greater => place_if_there(keys, key, near + 1),
    }
}

// The place `at`, where `key` stands there.
fn place_if_there(keys: &[Key], key: &[Value], at: usize) -> Option<usize>
    requires { IsStrictlySortedBy cmp_key keys.now }
    ensures within { IfSome result (λ at. at < length keys.now) }
    ensures found { IfSome result (λ at. place_of keys.now key.now ≡ Some at) }
{
    match keys.get(at) {
        Some(own) if key.cmp(own.as_slice()).is_eq() => Some(at),
        _ => None,
    }
}

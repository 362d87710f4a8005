//! Values as an index of a column tells them apart.
ghost use Rattle.std.specs.Prelude.{◌≡◌, slice_index_or};
ghost use Rattle.std.specs.Ordering.{as_partial_cmp};
ghost use Rattle.std.specs.Cmp.{partial_equiv_from_equiv, partial_order_from_agreeing_total};
ghost use Rattle.mq_values.specs.declared.value.Value.TheVariants.{Null};
ghost use Rattle.mq_join.specs.JoinKeys.{cmp_joined, is_date as spec_is_date, is_number as spec_is_number, is_same_key, is_text as spec_is_text, joined_total, same_keys_equiv};

use mq_values::Value;
use std::cmp::Ordering;
use std::marker::Model;

/// A value of a column that is lent, as a key of an index. Numbers that are worth the same are one key, whatever their
/// scales; where there is no such column, it is null.
#[derive(Drop)]
pub struct JoinKey<'a> {
    value: Option<&'a Value>,
}

impl<'a> Model for JoinKey<'a> {
    ghost use Rattle.std.specs.Option.{option_map_or};
    ghost use Rattle.mq_values.specs.declared.value.Value.{Value as Seen};
    ghost use Rattle.mq_values.specs.declared.value.Value.TheVariants.{Null};

    ghost Value = { Seen };

    ghost view = { λ key. option_map_or (λ v. v.now) key.value Null };
}

impl<'a> JoinKey<'a> {
    /// The key in a column of a row.
    pub fn new(row: &'a [Value], column: usize) -> JoinKey<'a>
        ensures { result ≡ slice_index_or row.now column Null }
    {
        JoinKey {
            value: row.get(column),
        }
    }

    pub fn is_number(&self) -> bool
        ensures { result ≡ spec_is_number self.now }
    {
        match self.value {
            Some(Value::Num(_)) => true,
            _ => false,
        }
    }

    pub fn is_text(&self) -> bool
        ensures { result ≡ spec_is_text self.now }
    {
        match self.value {
            Some(Value::Text(_)) => true,
            _ => false,
        }
    }

    pub fn is_date(&self) -> bool
        ensures { result ≡ spec_is_date self.now }
    {
        match self.value {
            Some(Value::Date(_)) => true,
            _ => false,
        }
    }
}

impl<'a> PartialEq for JoinKey<'a> {
    ghost eq = { is_same_key };

    ghost laws = { partial_equiv_from_equiv same_keys_equiv };

    fn eq(&self, other: &JoinKey<'a>) -> bool {
        self.cmp(other).is_eq()
    }
}

impl<'a> Eq for JoinKey<'a> {
    ghost laws = { same_keys_equiv };
}

impl<'a> PartialOrd for JoinKey<'a> {
    ghost use Rattle.std.specs.Prelude.{refl};

    ghost partial_cmp = { as_partial_cmp cmp_joined };

    ghost laws = { partial_order_from_agreeing_total cmp_joined joined_total (λ a b. refl) (λ a b. refl) };

    fn partial_cmp(&self, other: &JoinKey<'a>) -> Option<Ordering> {
        Some(self.cmp(other))
    }
}

impl<'a> Ord for JoinKey<'a> {
    ghost use Rattle.std.specs.Prelude.{refl};

    ghost cmp = { cmp_joined };

    ghost total = { joined_total };

    ghost matches_partial_cmp = { λ a b. refl };

    ghost matches_eq = { λ a b. refl };

    fn cmp(&self, other: &JoinKey<'a>) -> Ordering {
        match (self.value, other.value) {
            (Some(Value::Num(a)), Some(Value::Num(b))) => a.cmp_value(*b),
            (Some(Value::Num(_)), _) => Ordering::Less,
            (Some(Value::Text(_)), Some(Value::Num(_))) => Ordering::Greater,
            (Some(Value::Text(a)), Some(Value::Text(b))) => a.cmp(b),
            (Some(Value::Text(_)), _) => Ordering::Less,
            (Some(Value::Date(_)), Some(Value::Num(_))) => Ordering::Greater,
            (Some(Value::Date(_)), Some(Value::Text(_))) => Ordering::Greater,
            (Some(Value::Date(a)), Some(Value::Date(b))) => a.cmp(b),
            (Some(Value::Date(_)), _) => Ordering::Less,
            (_, Some(Value::Num(_))) => Ordering::Greater,
            (_, Some(Value::Text(_))) => Ordering::Greater,
            (_, Some(Value::Date(_))) => Ordering::Greater,
            (_, _) => Ordering::Equal,
        }
    }
}

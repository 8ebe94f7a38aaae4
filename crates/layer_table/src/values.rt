//! Going over the values of a table.

ghost use Rattle.std.specs.Prelude.{◌≡◌, ◌++◌, [], length, IfNone, None};
ghost use Rattle.std.specs.Option.{option_copied, option_map, option_to_list};
ghost use Rattle.std.specs.Iterator.{at_most};
ghost use Rattle.std.specs.Map.Iter.{TakesFirst, deref};
ghost use Rattle.layer_table.specs.Layers.{both_seen, next_of, values_above, values_in, values_set};

use crate::layered::Layered;
use std::marker::Model;

/// The values of a table in the order of their keys. It is seen as those that are still to come. Where the table has one
/// layer, going over all takes a step for each; else a value takes a search in each layer.
#[derive(Drop)]
pub struct Values<'a, K: Ord, V> {
    alone: &'a [Option<V>],
    table: Option<&'a Layered<K, V>>,
    last: Option<&'a K>,
}

impl<'a, K: Ord, V> Model for Values<'a, K, V> {
    ghost use Rattle.std.specs.Prelude.{List, ◌++◌};
    ghost use Rattle.std.specs.Option.{option_copied};
    ghost use Rattle.layer_table.specs.Layers.{values_in, values_set};

    ghost Value = { List V };

    ghost view = { λ v. values_set v.alone.now ++ values_in K.cmp (option_copied v.last) (option_copied v.table) };
}

impl<'a, K: Ord, V> Values<'a, K, V> {
    /// Those of the changes of one layer.
    pub(crate) fn alone(values: &'a [Option<V>]) -> Values<'a, K, V>
        ensures { result ≡ values_set values.now }
    {
        Values {
            alone: values,
            table: None,
            last: None,
        }
    }

    /// Those of the layers of a table.
    pub(crate) fn among(table: &'a Layered<K, V>) -> Values<'a, K, V>
        ensures { result ≡ values_above K.cmp None table.now.map }
    {
        Values {
            alone: &[],
            table: Some(table),
            last: None,
        }
    }
}

impl<'a, K: Ord, V> Iterator for Values<'a, K, V> {
    type Item = &'a V;

    ghost next_gives = { TakesFirst deref };

    ghost remaining = { λ s. at_most (length s) };

    fn next(&mut self) -> Option<&'a V> {
        let (value, rest) = first_set(self.alone);
        self.alone = rest;
        if value.is_some() {
            return value;
        }
        let (value, last) = value_above(self.table, self.last);
        self.last = last;
        value
    }
}

/// The first value that is set, and what comes after it.
fn first_set<V>(values: &[Option<V>]) -> (Option<&V>, &[Option<V>])
    ensures first { values_set values.now ≡ option_to_list (option_copied result.0) ++ values_set result.1.now }
    ensures none { IfNone result.0 (values_set values.now ≡ []) }
{
    let mut rest = values;
    while let Some((value, after)) = rest.split_first() {
        rest = after;
        if let Some(value) = value {
            return (Some(value), rest);
        }
    }
    (None, rest)
}

/// The value of the least key above this one, if there is a table, and the key that is the last then.
fn value_above<'a, K: Ord, V>(
    table: Option<&'a Layered<K, V>>,
    last: Option<&'a K>,
) -> (Option<&'a V>, Option<&'a K>)
    ensures first { values_in K.cmp (option_copied last.entry) (option_copied table.entry) ≡ option_to_list (option_copied result.0) ++ values_in K.cmp (option_copied result.1) (option_copied table.entry) }
    ensures none { IfNone result.0 (values_in K.cmp (option_copied last.entry) (option_copied table.entry) ≡ []) }
{
    let Some(table) = table else {
        return (None, last);
    };
    match table.next_after(last) {
        Some((key, value)) => (Some(value), Some(key)),
        None => (None, last),
    }
}

//! The order in which addresses are packed.

ghost use Rattle.std.specs.Prelude.{◌≡◌, ◌++◌, [], ◌∷◌, filter, IfOk, OnOk};
ghost use Rattle.std.specs.List.{AllByRecursion};
ghost use Rattle.std.specs.List.Sorted.{IsPermutation, IsSorted};
ghost use Rattle.live_model.specs.Fits.{FitsAddress};
ghost use Rattle.std.specs.Ordering.{nat_cmp, ordering_then};
ghost use Rattle.live_model.specs.declared.records.Rec.TheVariants.{Addr};
ghost use Rattle.live_model.specs.Records.{address_rank, record_cmp};
ghost use Rattle.boxed_write.specs.Classes.{held};
ghost use Rattle.boxed_write.specs.Packed.{sorted_by};
ghost use Rattle.addr_section.specs.Packed.{is_listed, keyed_cmp};
ghost use Rattle.addr_section.specs.Keyed.{IsKeyed, addresses_of, beside_cmp};

use live_model::{AddrKind, AddrRec};
use name_fold::key;
use owned_data::{Mem, Text};
use std::alloc::Global;
use std::cmp::Ordering;

/// An address, and the key of its name.
#[derive(Drop)]
pub(crate) struct Keyed<'a> {
    pub(crate) key: Text,
    pub(crate) address: &'a AddrRec,
}

/// The addresses of one of the two lists with their keys, in the order in which they are packed: houses, or else places and
/// streets.
pub(crate) fn ordered<'a>(
    alloc: Global,
    houses: bool,
    records: &[&'a AddrRec],
) -> Mem<Vec<Keyed<'a>>>
    requires { AllByRecursion FitsAddress (held records.now) }
    ensures addresses { IfOk result (λ keyed. addresses_of keyed.items ≡ sorted_by keyed_cmp (filter (is_listed houses) (held records.now))) }
    ensures keys { IfOk result (λ keyed. AllByRecursion IsKeyed keyed.items) }
{
    let mut keyed = listed(alloc, houses, records)?;
    sort_keyed(&mut keyed);
    Ok(keyed)
}

/// The addresses of one of the two lists with their keys, as they come.
fn listed<'a>(alloc: Global, houses: bool, records: &[&'a AddrRec]) -> Mem<Vec<Keyed<'a>>>
    ensures addresses { IfOk result (λ keyed. addresses_of keyed.items ≡ filter (is_listed houses) (held records.now)) }
    ensures keys { IfOk result (λ keyed. AllByRecursion IsKeyed keyed.items) }
{
    let mut keyed = Vec::new(alloc);
    let mut rest = records;
    while let [record, after @ ..] = rest {
        push_listed(alloc, houses, *record, &mut keyed)?;
        rest = after;
    }
    Ok(keyed)
}

/// Pushes an address with its key, where it stands in this list.
fn push_listed<'a>(
    alloc: Global,
    houses: bool,
    record: &'a AddrRec,
    keyed: &mut Vec<Keyed<'a>>,
) -> Mem<()>
    ensures addresses { OnOk result (addresses_of keyed.new.items ≡ addresses_of keyed.old.items ++ filter (is_listed houses) (record.now ∷ [])) }
    ensures keys { AllByRecursion IsKeyed keyed.old.items → OnOk result (AllByRecursion IsKeyed keyed.new.items) }
{
    if is_listed(houses, record) {
        keyed.push(with_key(alloc, record)?)?;
    }
    Ok(())
}

/// Whether an address stands in this list.
fn is_listed(houses: bool, address: &AddrRec) -> bool
    ensures { result ≡ is_listed houses address.now }
{
    match address.kind {
        AddrKind::Place => !houses,
        AddrKind::Street => !houses,
        AddrKind::House => houses,
    }
}

/// An address with the key of its name.
fn with_key(alloc: Global, address: &AddrRec) -> Mem<Keyed<'_>>
    ensures key { IfOk result IsKeyed }
    ensures address { IfOk result (λ keyed. keyed.address.now ≡ address.now) }
{
    let key = key(alloc, address.name.as_str())?;
    Ok(Keyed { key, address })
}

/// Puts addresses in the order in which they are packed. Those that tie are one, so it does not matter that the sort is not
/// stable.
fn sort_keyed(keyed: &mut Vec<Keyed<'_>>)
    ensures all { IsPermutation keyed.old.items keyed.new.items }
    ensures sorted { IsSorted beside_cmp keyed.new.items }
{
    keyed.sort_unstable_by(|one, other| compare(one, other));
}

/// By the key, then by kind, then in the order of records.
fn compare(one: &Keyed<'_>, other: &Keyed<'_>) -> Ordering
    ensures { result ≡ beside_cmp one.now other.now }
{
    match one.key.as_str().cmp(other.key.as_str()) {
        Ordering::Less => Ordering::Less,
        Ordering::Equal => compare_addresses(one.address, other.address),
        Ordering::Greater => Ordering::Greater,
    }
}

/// By kind, then in the order of records.
fn compare_addresses(one: &AddrRec, other: &AddrRec) -> Ordering
    ensures { result ≡ ordering_then (nat_cmp (address_rank one.now.kind) (address_rank other.now.kind)) (record_cmp (Addr one.now) (Addr other.now)) }
{
    match rank(one.kind).cmp(&rank(other.kind)) {
        Ordering::Less => Ordering::Less,
        Ordering::Equal => compare_records(one, other),
        Ordering::Greater => Ordering::Greater,
    }
}

/// In the order of records.
fn compare_records(one: &AddrRec, other: &AddrRec) -> Ordering
    ensures { result ≡ record_cmp (Addr one.now) (Addr other.now) }
{
    match one.id.ordinal().cmp(&other.id.ordinal()) {
        Ordering::Less => Ordering::Less,
        Ordering::Equal => one.compare(other),
        Ordering::Greater => Ordering::Greater,
    }
}

/// Places, streets and houses, counted from 0.
pub(crate) fn rank(kind: AddrKind) -> u64
    ensures { result ≡ address_rank kind }
{
    match kind {
        AddrKind::Place => 0,
        AddrKind::Street => 1,
        AddrKind::House => 2,
    }
}

//! Laws of the order. A call of one does nothing; its contract states the law.
ghost use Rattle.std.specs.Prelude.{◌≡◌, List, IsPermutation, IsSorted, Some, map, slice_get};
ghost use Rattle.record_order.specs.RecordOrder.{IsExactOrder, in_order, indexes_in_order};
ghost use Rattle.record_order.specs.RecordOrder.{octets_order, rule_order, server_order};

use crate::ranked::Ranked;
use dns_name::law_octets_determine_name;

/// The orders of addresses, of SRV and of NAPTR records are total, and tell different records
/// apart. A call does nothing.
pub fn law_orders_are_exact()
    ensures addresses { IsExactOrder octets_order }
    ensures servers { IsExactOrder server_order }
    ensures rules { IsExactOrder rule_order }
{
    law_octets_determine_name();
}

/// Permutations of records have the same order. A call does nothing.
pub fn law_order_is_fixed<T: Ranked>()
    ensures { IsExactOrder T.ranks → (records turned : List T) → IsPermutation records turned
        → in_order T.ranks turned ≡ in_order T.ranks records }
{}

/// In their order stand the same records, and none behind one that it comes before. At the indexes
/// of the order they stand so. A call does nothing.
pub fn law_order_is_sorted<T: Ranked>()
    ensures complete { (records : List T) → IsPermutation records (in_order T.ranks records) }
    ensures sorted { IsExactOrder T.ranks
        → (records : List T) → IsSorted T.ranks (in_order T.ranks records) }
    ensures indexes { (records : List T)
        → map (slice_get records) (indexes_in_order T.ranks records)
        ≡ map Some (in_order T.ranks records) }
{}

// How many contracts of each ranked item count.
ghost use Rattle.std.specs.Prelude.{◌≡◌, ◌-◌, [], sum_by};
ghost use Rattle.contra.specs.Counting.{brings, count_of, counted_from, in_group};

use ranked::contra::ContraItem;

// Whether the other item belongs to the group of this item's user and level.
fn is_in_group(item: &ContraItem, other: &ContraItem) -> bool
    ensures { result ≡ in_group item.now other.now }
{
    !other.customer && item.user == other.user && item.level == other.level
}

// What the other item brings into the group of this one.
fn brought(item: &ContraItem, other: &ContraItem) -> u32
    ensures { result ≡ brings item.now other.now }
{
    if is_in_group(item, other) {
        other.counted
    } else {
        0
    }
}

// What the earlier items of its group leave to this one, where a group counts up to a size.
fn room_behind(earlier: &[ContraItem], item: &ContraItem, size: u32) -> u32
    ensures { result ≡ size - sum_by (brings item.now) earlier.now }
{
    earlier.iter().fold(size, |room, other| {
        room.saturating_sub(brought(item, other))
    })
}

// How many contracts of an item count behind the earlier ones. A customer's count whole.
fn contracts_of(earlier: &[ContraItem], item: &ContraItem, size: u32) -> u32
    ensures { result ≡ count_of size earlier.now item.now }
{
    if item.customer {
        item.counted
    } else {
        item.counted.min(room_behind(earlier, item, size))
    }
}

// Counts the items, from the last to the first, so that those in front still have their sizes.
pub(crate) fn count_all(items: &mut [ContraItem], size: u32)
    ensures { items.new ≡ counted_from size [] items.old }
{
    if let Some((item, earlier)) = items.split_last_mut() {
        item.counted = contracts_of(earlier, item, size);
        count_all(earlier, size);
    }
}

//! Items of a line that are values of the libraries: words with spaces between them, each of
//! parts with colons between them, as `probe_parts::items` reads the parts.

use ob_base::Sequence;
use probe_parts::items::Parts;
use probe_parts::told::Told;
use std::alloc::Global;

/// What the parts of an item give.
pub(crate) trait Item: Sized + Drop {
    fn of_parts(alloc: Global, told: &mut Told, parts: &mut Parts<'_>) -> Self;
}

/// The items of a text, whose words are each an item.
pub(crate) fn items_of<T: Item>(alloc: Global, told: &mut Told, text: &str) -> Sequence<T> {
    let mut items = Sequence::new(alloc);
    for word in text.split_whitespace() {
        let mut parts = Parts::of(word);
        let item = T::of_parts(alloc, told, &mut parts);
        told.add(&mut items, item);
        if !parts.are_read() {
            told.refuse();
        }
    }
    items
}

//! Laws of the items of a connection, as clauses of functions that do nothing.

ghost use Rattle.std.specs.Prelude.{◌≡◌, ◌<◌, ◌++◌, ℕ, List, length, true};
ghost use Rattle.ob_http.specs.Connection.{AsksInterim};
ghost use Rattle.ob_http.specs.Item.{Item, IsItem, goes_on, is_interim_due};

/// The item of some bytes is the only one, and so is what stands behind it.
pub fn one_item()
    ensures { (bytes : List ℕ) (item other : Item) (rest left : List ℕ)
        → IsItem bytes item rest → IsItem bytes other left → (item ≡ other) × (rest ≡ left) }
{}

/// A message after which the connection is kept is fixed by the bytes that it took: whatever
/// follows them, it is the item, and what follows stands behind it.
pub fn item_of_its_bytes()
    ensures { (front rest other : List ℕ) (item : Item) → goes_on item ≡ true
        → IsItem (front ++ rest) item rest → IsItem (front ++ other) item other }
{}

/// An interim line that is due where a stream ends is due in every longer stream: there is an
/// item before whose reply it is due, and so it is before each.
pub fn interim_line_stays_due()
    ensures due { (bytes more : List ℕ) (item : Item) (rest : List ℕ) → is_interim_due item ≡ true
        → IsItem bytes item rest → AsksInterim (bytes ++ more) }
    ensures each { (bytes more : List ℕ) (item later : Item) (rest left : List ℕ)
        → is_interim_due item ≡ true → IsItem bytes item rest → IsItem (bytes ++ more) later left
        → is_interim_due later ≡ true }
{}

/// A message after which the connection is kept takes some of the bytes, at least one, from their
/// front, and what stands behind it is the rest.
pub fn message_takes_bytes()
    ensures { (bytes rest : List ℕ) (item : Item) → goes_on item ≡ true → IsItem bytes item rest
        → (front : List ℕ) × (0 < length front) × (bytes ≡ front ++ rest) }
{}

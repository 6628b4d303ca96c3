// Whether a store can be opened: a look at every global cell, in order.
ghost use Rattle.std.specs.Prelude.{◌≡◌, ℕ, ◌+◌, ◌<◌, ◌≤◌, length, slice_index, true, false, MatchOption};
ghost use Rattle.script.specs.Apart.{globals_of};
ghost use Rattle.acceptance.specs.Sheet.{lines_of};
ghost use Rattle.calls.specs.Globals.{FirstUnlawful, Unlawful};

use acceptance::globals::cells_of;
use kinds::NumberKind;
use lines::records::{Line, Record};
use stores::Store;

// A cell with an unlawful word, of so many from one on, if there is one.
fn unlawful_cell<K: NumberKind, S: Store>(store: &S, first: u32, count: u32) -> Option<usize>
    requires { first + count ≤ length (S.Store.words store.now) }
    ensures { MatchOption result ((c : ℕ) → first ≤ c → c < first + count → K.kind.lawful (slice_index (S.Store.words store.now) c) ≡ true) (λ c. (first ≤ c) × (c < first + count) × (K.kind.lawful (slice_index (S.Store.words store.now) c) ≡ false)) }
{
    for offset in 0..count {
        let cell = first as usize + offset as usize;
        let Some(word) = store.load(cell) else {
            return Some(cell);
        };
        if !K::is_lawful(word) {
            return Some(cell);
        }
    }
    None
}

// The line of the first global with an unlawful word.
pub(crate) fn first_unlawful<K: NumberKind, S: Store>(
    records: &[Record],
    store: &S,
) -> Option<usize>
    requires few { length records.now ≤ 2048 }
    requires room { (globals_of (lines_of records.now)).taken ≤ length (S.Store.words store.now) }
    ensures { MatchOption result ((n : ℕ) → ¬ (Unlawful K.kind (lines_of records.now) (S.Store.words store.now) n)) (FirstUnlawful K.kind (lines_of records.now) (S.Store.words store.now)) }
{
    let mut first: u32 = 0;
    for (index, record) in records.iter().enumerate() {
        let Line::Global { length, .. } = record.line else {
            return None;
        };
        let count = cells_of(length);
        let None = unlawful_cell::<K, S>(store, first, count) else {
            return Some(index + 1);
        };
        first += count;
    }
    None
}

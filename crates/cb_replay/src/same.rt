//! Whether a call noted the entry that is replayed.

ghost use Rattle.std.specs.Prelude.{◌≡◌, Some, option_map};
ghost use Rattle.std.specs.Bool.{Decides};
ghost use Rattle.cb_history.specs.Facts.{entry_fields};

use cb_member::Entry;

/// Whether a call noted just this entry.
pub fn is_noted(noted: Option<Entry>, entry: &Entry) -> bool
    ensures { Decides result (option_map entry_fields noted ≡ Some (entry_fields entry.now)) }
{
    match noted {
        Some(noted) => noted.is_same(entry),
        None => false,
    }
}

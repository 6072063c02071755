//! How many views speak of each name.
ghost use Rattle.std.specs.Prelude.{◌≡◌, false};
ghost use Rattle.std.specs.List.{list_any};
ghost use Rattle.std.specs.Str.{bytes_eq};
ghost use Rattle.ded_catalog.specs.Mentions.{AreOnce};
ghost use Rattle.ded_catalog.specs.State.{stored_uses};
ghost use Rattle.ded_catalog.specs.Users.{AreCounted, AreUsed, HasMentions, HaveRoom, Raises, without_users};

use crate::entries::Entries;
use crate::stored::Stored;
use ded_model::name::Name;

/// Counts what stands under a new name, which isn't among the entries yet, where it is a view.
pub(crate) fn count(entries: &mut Entries, stored: &Stored)
    requires counted { AreCounted (λ n. false) entries.old.entries }
    requires mentions { HasMentions stored.now }
    ensures counted { AreCounted (λ n. stored_uses n stored.now) entries.new.entries }
    ensures same { without_users entries.new.entries ≡ without_users entries.old.entries }
    ensures hashed { entries.new.hashing ≡ entries.old.hashing }
{
    let _ = entries.len(); // each number has room for one more
    if let Stored::View(view) = stored {
        raise_all(entries, &view.mentions);
    }
}

/// Counts no more what isn't among the entries, where it is a view, and gives it up.
pub(crate) fn discount(entries: &mut Entries, stored: Stored)
    requires counted { AreCounted (λ n. stored_uses n stored) entries.old.entries }
    requires mentions { HasMentions stored }
    ensures counted { AreCounted (λ n. false) entries.new.entries }
    ensures same { without_users entries.new.entries ≡ without_users entries.old.entries }
    ensures hashed { entries.new.hashing ≡ entries.old.hashing }
{
    if let Stored::View(view) = &stored {
        lower_all(entries, &view.mentions);
    }
    drop(stored);
}

/// Counts one view more that speaks of each of the names.
fn raise_all(entries: &mut Entries, names: &Vec<Name>)
    requires once { AreOnce names.now.items }
    requires room { HaveRoom entries.old.entries }
    ensures raised { Raises (λ n. list_any (bytes_eq n) names.now.items) entries.old.entries entries.new.entries }
    ensures hashed { entries.new.hashing ≡ entries.old.hashing }
{
    for name in names {
        entries.raise(name);
    }
}

/// Counts one view less that speaks of each of the names.
fn lower_all(entries: &mut Entries, names: &Vec<Name>)
    requires once { AreOnce names.now.items }
    requires used { AreUsed names.now.items entries.old.entries }
    ensures lowered { Raises (λ n. list_any (bytes_eq n) names.now.items) entries.new.entries entries.old.entries }
    ensures hashed { entries.new.hashing ≡ entries.old.hashing }
{
    for name in names {
        entries.lower(name);
    }
}

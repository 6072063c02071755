//! The name at which a commit conflicts.
ghost use Rattle.std.specs.Prelude.{◌≡◌, ◌&&◌, Some, MatchOption, option_map, if◌then◌else◌};
ghost use Rattle.ded_shared.specs.Conflicts.{NoneInBoth, IsLeastInBoth, is_below};
ghost use Rattle.ded_shared.specs.State.{is_among};

use ded_model::name::Name;

/// The least name, by bytes, that stands in both lists, where there is one.
pub fn conflict<'a>(touched: &'a [Name], stale: &[Name]) -> Option<&'a Name>
    ensures { MatchOption result (NoneInBoth touched.now stale.now) (λ n. IsLeastInBoth touched.now stale.now n.now) }
{
    let mut least: Option<&Name> = None;
    for name in touched {
        least = lesser(name, stale, least);
    }
    least
}

/// The name where it stands in the list and is less than the other one, by bytes, or there is no other one; else the
/// other one.
fn lesser<'a>(name: &'a Name, stale: &[Name], other: Option<&'a Name>) -> Option<&'a Name>
    ensures { option_map (λ n. n.now) result ≡ (if is_among stale.now name.now
        && is_below name.now (option_map (λ n. n.now) other.entry) then Some name.now else option_map
        (λ n. n.now) other.entry) }
{
    if stale.contains(name) && is_below(name, other) {
        Some(name)
    } else {
        other
    }
}

/// Whether the name is less than the other one, by bytes, or there is no other one.
fn is_below(name: &Name, other: Option<&Name>) -> bool
    ensures { result ≡ is_below name.now (option_map (λ n. n.now) other.entry) }
{
    match other {
        Some(other) => name.bytes.as_slice().cmp(other.bytes.as_slice()).is_lt(),
        None => true,
    }
}

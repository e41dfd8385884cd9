//! The greatest version so far, at each noted entry: of all keys under all terms.

ghost use Rattle.std.specs.Prelude.{◌≡◌, ◌++◌, ◌∷◌, [], OnOk, OnErr, take};
ghost use Rattle.rc_ownership.specs.Tops.{higher, top_or};

/// The last of them, 0 where there is none.
pub(crate) fn top_of(tops: &[u64]) -> u64
    ensures { result ≡ top_or 0 tops.now }
{
    match tops.last() {
        Some(version) => *version,
        None => 0,
    }
}

/// The greater of two versions.
pub(crate) fn higher(one: u64, other: u64) -> u64
    ensures { result ≡ higher one other }
{
    if one < other { other } else { one }
}

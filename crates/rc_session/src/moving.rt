//! Bytes into the caller's room.

ghost use Rattle.std.specs.Prelude.{◌≡◌, ◌↔◌, ◌<◌, ◌++◌, [], length, drop, true, false, IsTrue};

/// Copies the bytes to the front of the caller's, if these are enough.
pub(crate) fn copied(from: &[u8], to: &mut [u8]) -> bool
    ensures copied { IsTrue result → to.new ≡ from.now ++ drop (length from.now) to.old }
    ensures room { (result ≡ false) ↔ (length to.old < length from.now) }
    ensures same { result ≡ false → to.new ≡ to.old }
{
    if to.len() < from.len() {
        return false;
    }
    let (front, _) = to.split_at_mut(from.len());
    front.copy_from_slice(from);
    true
}

/// Moves the bytes to the front of the caller's, if these are enough.
pub(crate) fn moved(from: &mut Vec<u8>, to: &mut [u8]) -> bool
    ensures moved { IsTrue result → to.new ≡ from.old.items ++ drop (length from.old.items) to.old }
    ensures empty { IsTrue result → from.new.items ≡ [] }
    ensures room { (result ≡ false) ↔ (length to.old < length from.old.items) }
    ensures same { result ≡ false → to.new ≡ to.old }
    ensures kept { result ≡ false → from.new.items ≡ from.old.items }
{
    if !copied(from.as_slice(), to) {
        return false;
    }
    from.clear();
    true
}

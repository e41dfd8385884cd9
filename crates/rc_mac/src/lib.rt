//! HMAC with SHA-256: a sum over a message that only who knows the key can make. Whoever reads it knows that the
//! message came from somebody who has the key, and as it is.
#![tactic(auto)]

ghost use Rattle.std.specs.Prelude.{◌≡◌, ◌++◌, ◌≤◌, ◌-◌, length, replicate};
ghost use Rattle.sha2.specs.Sha256.{sha256};
ghost use Rattle.rc_mac.specs.Mac.{hmac_sha256, key_block, turned};

use sha2::{Digest, Sha256};

/// How many bytes a block of the digest has.
const BLOCK: usize = 64;

/// The sum over a message under a key.
pub fn hmac_sha256(key: &[u8], message: &[u8]) -> [u8; 32]
    ensures { result ≡ hmac_sha256 key.now message.now }
{
    let block = key_block(key);
    let inner = digest_of(turned(block, 0x36), message);
    digest_of(turned(block, 0x5c), inner.as_slice())
}

/// The digest of a block and what follows it.
fn digest_of(block: [u8; 64], rest: &[u8]) -> [u8; 32]
    ensures { result ≡ sha256 (block ++ rest.now) }
{
    let mut hasher = Sha256::new();
    hasher.update(block.as_slice());
    hasher.update(rest);
    hasher.finalize()
}

/// The key in one block: a longer one is its digest, and zeros follow.
fn key_block(key: &[u8]) -> [u8; 64]
    ensures { result ≡ key_block key.now }
{
    if key.len() <= BLOCK {
        return padded(key);
    }
    let digest = digest_alone(key);
    padded(digest.as_slice())
}

/// The digest of a key.
fn digest_alone(key: &[u8]) -> [u8; 32]
    ensures { result ≡ sha256 key.now }
{
    let mut hasher = Sha256::new();
    hasher.update(key);
    hasher.finalize()
}

/// At most a block of bytes, and zeros.
fn padded(bytes: &[u8]) -> [u8; 64]
    requires { length bytes.now ≤ 64 }
    ensures { result ≡ bytes.now ++ replicate (64 - length bytes.now) 0 }
{
    let mut block = [0u8; 64];
    let (front, _) = block.as_mut_slice().split_at_mut(bytes.len());
    front.copy_from_slice(bytes);
    block
}

/// Each byte with these bits turned.
fn turned(block: [u8; 64], bits: u8) -> [u8; 64]
    ensures { result ≡ turned bits block }
{
    let mut block = block;
    for byte in block.iter_mut() {
        *byte ^= bits;
    }
    block
}

//! Proofs that one knows the secret: HMAC with SHA-256.

ghost use Rattle.std.specs.Prelude.{◌≡◌, ◌++◌, ◌-◌, ◌≤◌, length, replicate};
ghost use Rattle.sha2.specs.Sha256.{sha256};
ghost use Rattle.hk_hello.specs.Mac.{key_block, masked, hmac};

use sha2::{Digest, Sha256};

/// How many bytes SHA-256 takes at once; a longer secret is digested first.
pub const BLOCK: usize = 64;

/// How many bytes a proof has.
pub const PROOF_LEN: usize = 32;

/// That somebody knows the secret. It is asked for by bytes that are drawn anew for each connection, so what the time of
/// a comparison may tell is of a proof that nobody is asked for again: proofs are compared as any bytes are.
#[derive(Clone, Copy, Debug, PartialEq, Eq)]
pub struct Proof(pub [u8; PROOF_LEN]);

// Bytes, and zeros behind them.
fn filled<const N: usize>(bytes: &[u8]) -> [u8; N]
    requires { length bytes.now ≤ N }
    ensures { result ≡ bytes.now ++ replicate (N - length bytes.now) 0 }
{
    let mut filled = [0; N];
    filled[..bytes.len()].copy_from_slice(bytes);
    filled
}

#[tactic(auto, unfolding(crate::specs::Mac::key_block))]
fn key_block(secret: &[u8]) -> [u8; BLOCK]
    ensures { result ≡ key_block secret.now }
{
    if BLOCK < secret.len() {
        return filled(&Sha256::digest(secret));
    }
    filled(secret)
}

fn masked(mask: u8, block: &[u8; BLOCK]) -> [u8; BLOCK]
    ensures { result ≡ masked mask block.now }
{
    let mut masked = [0; BLOCK];
    for i in 0..BLOCK {
        masked[i] = block[i] ^ mask;
    }
    masked
}

// The digest of a block and two parts behind it.
fn digest_of(block: &[u8; BLOCK], first: &[u8], second: &[u8]) -> [u8; PROOF_LEN]
    ensures { result ≡ sha256 (block.now ++ (first.now ++ second.now)) }
{
    let mut hasher = Sha256::new();
    hasher.update(block);
    hasher.update(first);
    hasher.update(second);
    hasher.finalize()
}

/// The HMAC, with SHA-256 and this secret, of a message in two parts. It is the same however the message is parted.
#[tactic(auto, unfolding(crate::specs::Mac::hmac))]
pub fn hmac(secret: &[u8], first: &[u8], second: &[u8]) -> Proof
    ensures { result.0 ≡ hmac secret.now (first.now ++ second.now) }
{
    let block = key_block(secret);
    let inner = digest_of(&masked(0x36, &block), first, second);
    Proof(digest_of(&masked(0x5c, &block), &inner, &[]))
}

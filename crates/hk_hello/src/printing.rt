//! Printing hellos, and the proofs.

ghost use Rattle.std.specs.Prelude.{◌≡◌, ◌++◌, ◌+◌, length, OnOk, IfOk};
ghost use Rattle.std.specs.Int.{w16, to_be_bytes};
ghost use Rattle.hk_hello.specs.Hellos.{purpose_byte, party_bytes, parties_bytes, home_bytes, terms_bytes, fields_bytes, hello_bytes, signed_bytes, proof_of, welcome_of, IsHelloInRange, IsGroupName, IsSigned};

use crate::challenge::Challenge;
use crate::hello::{Hello, Party, Purpose, SignedHello};
use crate::mac::{PROOF_LEN, Proof, hmac};
use crate::values::{hello_is_value, home_is_value, proof_is_value};
use hk_base::Memory;
use hk_fields::{
    put, put_actor, put_byte, put_number16, put_number32, put_number64, put_text, put_ticket,
};
use std::alloc::Global;

fn purpose_byte(purpose: Purpose) -> u8
    ensures { result ≡ purpose_byte purpose }
{
    match purpose {
        Purpose::Letters => 0,
        Purpose::Requests => 1,
    }
}

fn put_party(out: &mut Vec<u8>, party: Party) -> Result<(), Memory>
    ensures { OnOk result (out.new.items ≡ out.old.items ++ party_bytes party) }
{
    match party {
        Party::Actor(actor) => put_actor(out, actor),
        Party::Neither => {
            put_byte(out, 2)?;
            put_number16(out, 0)
        }
    }
}

fn put_parties(out: &mut Vec<u8>, hello: &Hello) -> Result<(), Memory>
    ensures { OnOk result (out.new.items ≡ out.old.items ++ parties_bytes hello.now) }
{
    put_byte(out, purpose_byte(hello.purpose))?;
    put_party(out, hello.from)?;
    put_party(out, hello.to)
}

fn put_home(out: &mut Vec<u8>, hello: &Hello) -> Result<(), Memory>
    ensures { OnOk result (out.new.items ≡ out.old.items ++ home_bytes hello.now) }
{
    put_number64(out, hello.founding)?;
    put_ticket(out, hello.ticket)?;
    put(out, &hello.hosts.0)
}

fn put_terms(out: &mut Vec<u8>, hello: &Hello) -> Result<(), Memory>
    requires { IsGroupName hello.now.group }
    ensures { OnOk result (out.new.items ≡ out.old.items ++ terms_bytes hello.now) }
{
    put_number32(out, hello.lease)?;
    put_number32(out, hello.skew)?;
    put_text(out, hello.group.as_slice())
}

fn put_fields(out: &mut Vec<u8>, hello: &Hello) -> Result<(), Memory>
    requires { IsGroupName hello.now.group }
    ensures { OnOk result (out.new.items ≡ out.old.items ++ fields_bytes hello.now) }
{
    put_parties(out, hello)?;
    put_home(out, hello)?;
    put_terms(out, hello)
}

// All that a proof is of, but the challenge.
fn hello_bytes(alloc: Global, hello: &Hello) -> Result<Vec<u8>, Memory>
    requires { IsGroupName hello.now.group }
    ensures { IfOk result (λ bytes. bytes.items ≡ hello_bytes hello.now) }
{
    home_is_value(hello);
    let mut fields = Vec::new(alloc);
    put_fields(&mut fields, hello)?;
    let mut bytes = Vec::new(alloc);
    put_number16(&mut bytes, (fields.len() + PROOF_LEN) as u16)?;
    put(&mut bytes, &fields)?;
    Ok(bytes)
}

// The proof that a hello would have under this secret.
pub fn proof_of(
    alloc: Global,
    secret: &[u8],
    challenge: Challenge,
    hello: &Hello,
) -> Result<Proof, Memory>
    requires { IsGroupName hello.now.group }
    ensures { IfOk result (λ proof. proof.0 ≡ proof_of secret.now challenge hello.now) }
{
    let bytes = hello_bytes(alloc, hello)?;
    Ok(hmac(secret, &challenge.0, &bytes))
}

/// The hello with the proof that its dialler knows the secret.
pub fn sign(
    alloc: Global,
    secret: &[u8],
    challenge: Challenge,
    hello: Hello,
) -> Result<SignedHello, Memory>
    requires { IsHelloInRange hello }
    ensures range { IfOk result (λ signed. IsHelloInRange signed.hello) }
    ensures signed { IfOk result (λ signed. (signed.hello ≡ hello) × (signed.proof.0 ≡ proof_of secret.now challenge hello)) }
{
    let proof = proof_of(alloc, secret, challenge, &hello)?;
    Ok(SignedHello { hello, proof })
}

/// Puts a hello and its proof behind other bytes. Where an allocation is refused, what stands there is of no use.
pub fn print_hello(alloc: Global, out: &mut Vec<u8>, signed: &SignedHello) -> Result<(), Memory>
    requires { IsHelloInRange signed.now.hello }
    ensures printed { OnOk result (out.new.items ≡ out.old.items ++ signed_bytes signed.now) }
    ensures is { IsSigned signed.now }
{
    hello_is_value(&signed.hello);
    proof_is_value(signed.proof);
    let bytes = hello_bytes(alloc, &signed.hello)?;
    put(out, &bytes)?;
    put(out, &signed.proof.0)
}

/// The proof that an acceptor knows the secret, of a hello's proof and its own challenge. Who dialled compares it with
/// the one in the answer.
pub fn welcome(secret: &[u8], challenge: Challenge, proof: Proof) -> Proof
    ensures { result.0 ≡ welcome_of secret.now challenge proof }
{
    hmac(secret, &proof.0, &challenge.0)
}
